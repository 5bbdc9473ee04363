ghost use Rattle.std.specs.Prelude.{◌≡◌, ℕ, not, length, IfOk, Bool, true};
ghost use Rattle.session_model.specs.Query.{at_level, all_at, is_met};
ghost use Rattle.session_model.specs.Reach.{is_ready};
ghost use Rattle.session_plain.specs.Marks.{mark_at, MarksUnready};

use crate::query::{lost_match, row_address};
use crate::reach::{mark, unready};
use orc_ids::{InstId, Level};
use session_model::{InstRow, Query};
use std::alloc::{AllocError, Global};

/// Whether an instance is at a level, by the marks of the unready ones.
fn is_at(rows: &[InstRow], marks: &[bool], level: Level, i: InstId) -> bool
    requires { MarksUnready rows.now marks.now }
    ensures { result ≡ at_level rows.now level i.0 }
{
    match level {
        Level::Resolved => row_address(rows, i).is_some(),
        Level::Ready => !mark(marks, true, i),
    }
}

/// Whether each matched instance is at a level.
pub fn all_are_at(
    rows: &[InstRow],
    marks: &[bool],
    level: Level,
    matched: &[Option<InstId>],
) -> bool
    requires { MarksUnready rows.now marks.now }
    ensures { result ≡ all_at rows.now level matched.now }
{
    for found in matched {
        if let Some(i) = found {
            if !is_at(rows, marks, level, *i) {
                return false;
            }
        }
    }
    true
}

/// Whether the query's end is decided.
pub fn query_met(rows: &[InstRow], marks: &[bool], q: &Query) -> bool
    requires { MarksUnready rows.now marks.now }
    ensures { result ≡ is_met rows.now q.now }
{
    all_are_at(rows, marks, q.level, q.matched.as_slice())
        || lost_match(rows, q.matched.as_slice()).is_some()
}
