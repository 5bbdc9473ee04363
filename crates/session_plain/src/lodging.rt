ghost use Rattle.std.specs.Prelude.{◌≡◌, ◌<◌, ◌+◌, ◌^◌, ◌∷◌, List, Option, Some, None, length, slice_get, option_and_then, OnOk, if◌then◌else◌};
ghost use Rattle.orc_ids.specs.declared.ids.InstId.{InstId};
ghost use Rattle.session_model.specs.Plain.{is_unsearched};
ghost use Rattle.session_model.specs.Change.{claimed, claimed_for, all_claimed, lodged, linked};
ghost use Rattle.session_plain.specs.Meant.{meant};

use crate::phases::phase_unsearched;
use crate::plain::PlainSession;
use crate::rows::claim_rows;
use crate::units::{Step, step_in};
use orc_ids::{InstId, Level, UnitId};
use session_model::{InstRow, Job, Matched, Query, UnitKind};
use std::alloc::AllocError;

/// All instances of a unit become Claimed, and its job Start is listed.
fn claim<U: UnitKind>(s: &mut PlainSession<U>, u: UnitId) -> Result<(), AllocError>
    ensures { OnOk result (meant U.meaning s.new ≡ claimed u.0 (meant U.meaning s.old)) }
{
    s.jobs.push(Job::Start(u))?;
    step_in(&mut s.units, u, Step::List);
    claim_rows(&mut s.rows, u);
    Ok(())
}

/// The unit of an instance that no lookup has asked for.
fn unit_to_claim(rows: &[InstRow], i: InstId) -> Option<UnitId>
    ensures { result ≡ option_and_then (λ r. if is_unsearched r.phase then Some r.unit else None) (slice_get rows.now i.0) }
{
    match rows.get(i.0 as usize) {
        Some(row) => {
            if phase_unsearched(&row.phase) {
                Some(row.unit)
            } else {
                None
            }
        }
        None => None,
    }
}

/// The unit of an instance that no lookup has asked for is claimed.
fn claim_for<U: UnitKind>(s: &mut PlainSession<U>, i: InstId) -> Result<(), AllocError>
    ensures { OnOk result (meant U.meaning s.new ≡ claimed_for i (meant U.meaning s.old)) }
{
    match unit_to_claim(&s.rows, i) {
        Some(u) => claim(s, u),
        None => Ok(()),
    }
}

fn claim_found<U: UnitKind>(
    s: &mut PlainSession<U>,
    found: Option<InstId>,
) -> Result<(), AllocError>
    ensures { OnOk result ((rest : List (Option InstId)) → all_claimed rest (meant U.meaning s.new) ≡ all_claimed (found ∷ rest) (meant U.meaning s.old)) }
{
    match found {
        Some(i) => claim_for(s, i),
        None => Ok(()),
    }
}

/// The units of what was matched are claimed, in the order of the wanted names.
fn claim_all<U: UnitKind>(
    s: &mut PlainSession<U>,
    matched: &[Option<InstId>],
) -> Result<(), AllocError>
    ensures { OnOk result (meant U.meaning s.new ≡ all_claimed matched.now (meant U.meaning s.old)) }
{
    for found in matched {
        claim_found(s, *found)?;
    }
    Ok(())
}

/// A query for what was matched, lodged by the next entry.
pub fn lodge<U: UnitKind>(
    s: &mut PlainSession<U>,
    matched: Matched,
    level: Level,
    unit: Option<u32>,
    note: Option<u32>,
) -> Result<(), AllocError>
    requires { s.old.entries + 1 < 2 ^ 64 }
    ensures { OnOk result (meant U.meaning s.new ≡ lodged matched level unit note (meant U.meaning s.old)) }
{
    let asked = s.entries + 1;
    claim_all(s, matched.as_slice())?;
    s.queries.push(Query {
        asked,
        matched,
        level,
        unit,
        note,
    })?;
    Ok(())
}

/// The unit waits for the query of its externals, which matched these.
pub fn link<U: UnitKind>(
    s: &mut PlainSession<U>,
    u: UnitId,
    matched: Matched,
) -> Result<(), AllocError>
    requires small { length s.old.queries.items < 2 ^ 32 }
    requires numbered { s.old.entries + 1 < 2 ^ 64 }
    ensures { OnOk result (meant U.meaning s.new ≡ linked u.0 matched (meant U.meaning s.old)) }
{
    let query = s.queries.as_slice().len() as u32;
    lodge(s, matched, Level::Resolved, Some(u.0), None)?;
    step_in(&mut s.units, u, Step::Wait(query));
    Ok(())
}
