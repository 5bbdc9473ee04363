//! Open and ended queries.

ghost use Rattle.session_laws.specs.Queries.{EndIsUnique, EndStays, OpenOrEnded, OpenHasNoEnd, QueryWasAsked, OneEndAtATime};

/// A query settles at most once, and with one end.
pub fn end_is_unique()
    ensures { EndIsUnique }
{}

/// An end stays as the history grows.
pub fn end_stays()
    ensures { EndStays }
{}

/// A query is open, or it has an end.
pub fn open_or_ended()
    ensures { OpenOrEnded }
{}

/// An open query has no end.
pub fn open_has_no_end()
    ensures { OpenHasNoEnd }
{}

/// A query was asked by an entry of the history.
pub fn query_was_asked()
    ensures { QueryWasAsked }
{}

/// Both ends of a query never come first together.
pub fn one_end_at_a_time()
    ensures { OneEndAtATime }
{}
