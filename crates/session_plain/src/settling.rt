ghost use Rattle.std.specs.Prelude.{◌≡◌, ◌<◌, ◌+◌, ◌^◌, drop, length, slice_get, option_and_then, OnOk, IfOk, IsTrue};
ghost use Rattle.session_model.specs.Change.{waits_for, settled, settled_from};
ghost use Rattle.session_plain.specs.Marks.{MarksUnready};
ghost use Rattle.session_plain.specs.Settling.{met_link, settle_link};
ghost use Rattle.session_plain.specs.Meant.{meant};

use crate::jobs::list_finish;
use crate::levels::query_met;
use crate::plain::PlainSession;
use crate::reach::unready;
use orc_ids::UnitId;
use session_model::{UnitKind, UnitPhase};
use std::alloc::{AllocError, Global};

/// Whether the unit waits for the query of this number.
fn waits<U: UnitKind>(s: &PlainSession<U>, u: UnitId, k: usize) -> bool
    ensures { result ≡ waits_for (meant U.meaning s.now) u.0 k }
{
    match s.units.get(u.0 as usize) {
        None => false,
        Some(x) => match x.query {
            Some(q) => q as usize == k && matches!(x.phase, UnitPhase::Waiting),
            None => false,
        },
    }
}

/// The unit that the query of this number links, if the query is met.
fn link_of<U: UnitKind>(s: &PlainSession<U>, marks: &[bool], k: usize) -> Option<u32>
    requires { MarksUnready s.now.rows.items marks.now }
    ensures { result ≡ option_and_then (met_link s.now.rows.items) (slice_get s.now.queries.items k) }
{
    match s.queries.get(k) {
        None => None,
        Some(q) => {
            if query_met(&s.rows, marks, q) {
                q.unit
            } else {
                None
            }
        }
    }
}

/// This unit is linked, if it waits for the query of this number.
fn settle_one<U: UnitKind>(
    s: &mut PlainSession<U>,
    k: usize,
    linked: Option<u32>,
) -> Result<(), AllocError>
    ensures settled { OnOk result (meant U.meaning s.new ≡ settle_link k linked (meant U.meaning s.old)) }
    ensures rows { s.new.rows.items ≡ s.old.rows.items }
    ensures queries { s.new.queries.items ≡ s.old.queries.items }
{
    if let Some(u) = linked {
        if waits(s, UnitId(u), k) {
            list_finish(s, UnitId(u))?;
        }
    }
    Ok(())
}

/// The query of this number is looked at.
fn settle_at<U: UnitKind>(
    s: &mut PlainSession<U>,
    marks: &[bool],
    k: usize,
) -> Result<(), AllocError>
    requires marks { MarksUnready s.old.rows.items marks.now }
    requires within { k < length s.old.queries.items }
    ensures settled { OnOk result (settled_from (k + 1) (drop (k + 1) s.old.queries.items) (meant U.meaning s.new) ≡ settled_from k (drop k s.old.queries.items) (meant U.meaning s.old)) }
    ensures rows { s.new.rows.items ≡ s.old.rows.items }
    ensures queries { s.new.queries.items ≡ s.old.queries.items }
{
    let linked = link_of(s, marks, k);
    settle_one(s, k, linked)?;
    Ok(())
}

/// Each unit that waits for a query that is met is linked, in rising query number.
pub fn settle<U: UnitKind>(alloc: Global, s: &mut PlainSession<U>) -> Result<(), AllocError>
    ensures { OnOk result (meant U.meaning s.new ≡ settled (meant U.meaning s.old)) }
{
    let marks = unready(alloc, &s.rows)?;
    let count = s.queries.len();
    for k in 0..count {
        settle_at(s, &marks, k)?;
    }
    Ok(())
}
