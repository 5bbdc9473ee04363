ghost use Rattle.std.specs.Prelude.{◌+◌, ◌≤◌, length};
ghost use Rattle.std.specs.Bool.{OnTrue};
ghost use Rattle.orc_ids.specs.declared.limits.TheConstants.{INSTANCE_LIMIT};
ghost use Rattle.jit_dylib.specs.Rows.{NamesDiffer};

use jit_dylib::{DefineError, Defined};
use orc_ids::{INSTANCE_LIMIT, InstId, NameId, SymFlags};

/// What becomes of names that are defined.
#[derive(Drop)]
pub(super) enum Expected<'a> {
    /// Which of them stay, and the instances that are replaced.
    Defined(&'a [bool], &'a [InstId]),
    /// The first that has a definition already, and its instance.
    Duplicate(NameId, InstId),
}

/// Whether the names rise, so that none is there twice. A step defines three at most.
fn rise(offers: &[(NameId, SymFlags)]) -> bool
    ensures { OnTrue result (NamesDiffer offers.now) }
{
    match offers {
        [] | [_] => true,
        [a, b] => a.0.0 < b.0.0,
        [a, b, c] => {
            if a.0.0 >= b.0.0 {
                return false;
            }
            if b.0.0 >= c.0.0 {
                return false;
            }
            true
        }
        _ => false,
    }
}

/// Whether these may be defined, with instances from this number on.
pub(super) fn may_define(offers: &[(NameId, SymFlags)], first: u32) -> bool
    ensures differ { OnTrue result (NamesDiffer offers.now) }
    ensures numbers { OnTrue result (first + length offers.now ≤ INSTANCE_LIMIT) }
{
    rise(offers) && first as usize + offers.len() <= INSTANCE_LIMIT
}

/// Whether that became of the names.
pub(super) fn is_expected(outcome: &Result<Defined, DefineError>, expected: &Expected) -> bool {
    match expected {
        Expected::Defined(live, replaced) => is_defined(outcome, live, replaced),
        Expected::Duplicate(name, i) => is_duplicate(outcome, *name, *i),
    }
}

/// These names stay, and these instances are replaced.
fn is_defined(outcome: &Result<Defined, DefineError>, live: &[bool], replaced: &[InstId]) -> bool {
    match outcome {
        Ok(defined) => {
            defined.live.as_slice() == live && defined.replaced.as_slice() == replaced
        }
        Err(_) => false,
    }
}

/// The name is told as a duplicate of that instance.
fn is_duplicate(outcome: &Result<Defined, DefineError>, name: NameId, i: InstId) -> bool {
    matches!(outcome, Err(DefineError::Duplicate(n, j)) if *n == name && *j == i)
}
