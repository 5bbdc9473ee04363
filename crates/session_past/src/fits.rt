//! Laws: along a legal history a session stays fit for its answers and its changes.

ghost use Rattle.session_past.specs.Fit.{EmptyIsFit, FitStays, FitSuits};

use session_model::UnitKind;

/// The session before its first entry is fit.
pub fn empty_is_fit()
    ensures { EmptyIsFit }
{}

/// An entry with a right reply keeps a session fit.
pub fn fit_stays()
    ensures { FitStays }
{}

/// A fit session meets the conditions of the functions here.
pub fn fit_suits<U: UnitKind>()
    ensures { FitSuits U.meaning }
{}
