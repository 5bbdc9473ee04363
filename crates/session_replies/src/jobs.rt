//! The oldest job, and how many units are held.

ghost use Rattle.std.specs.Prelude.{◌≡◌, slice_get};
ghost use Rattle.session_model.specs.Plain.{Plain, kept};
ghost use Rattle.session_parts.specs.Parts.{AreParts};

use orc_io::Notify;
use session_model::{Job, UnitKind};
use session_parts::Parts;

/// How many units a seat holds.
pub fn kept<U: UnitKind, N: Notify>(parts: &Parts<U, N>) -> u32
    ghost m: { Plain }
    requires parts { AreParts U.meaning parts.now m }
    ensures { result ≡ kept m }
{
    parts.units.held()
}

/// The oldest job that is listed.
pub fn first_job<U: UnitKind, N: Notify>(parts: &Parts<U, N>) -> Option<Job>
    ghost m: { Plain }
    requires parts { AreParts U.meaning parts.now m }
    ensures { result ≡ slice_get m.jobs 0 }
{
    parts.units.first()
}
