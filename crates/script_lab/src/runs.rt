//! How runs end.

use crate::replay::{LabEntry, Played, play_journal};
use crate::unit::LabUnit;
use exec_run::RunEnd;
use rv_hart::Cause;
use session_model::{UnitKind, UnitPhase};
use session_plain::{PlainSession, PlainUnit};
use std::alloc::{AllocError, Global};

/// How far behind the base of the unit an address lies, if the unit's bytes are in memory there.
fn offset_in(x: &PlainUnit<LabUnit>, address: u64) -> Option<u64> {
    if x.phase != UnitPhase::Done || x.live.len() != x.unit.count() as usize {
        return None;
    }
    let shape = x.unit.known.shape(x.live.as_slice())?;
    let offset = address.checked_sub(x.base?)?;
    if offset < shape.need {
        Some(offset)
    } else {
        None
    }
}

/// Where a run from an address behind a unit's base ends: at the code's beginning it has its answer, and at the
/// return it has its first argument.
fn end_in(x: &PlainUnit<LabUnit>, offset: u64, argument: u64) -> RunEnd {
    if offset % 8 == 0 {
        RunEnd::Exited(u64::from(x.unit.answer))
    } else {
        RunEnd::Exited(argument)
    }
}

/// How a run from the address ends in the memory of the session, with this first argument.
fn end_at(s: &PlainSession<LabUnit>, address: u64, argument: u64) -> RunEnd {
    for x in s.units.iter() {
        if let Some(offset) = offset_in(x, address) {
            return end_in(x, offset, argument);
        }
    }
    RunEnd::Trap(address, Cause::Fetch)
}

/// Whether a run from the address ends so, in the memory after these entries.
pub fn runs_so(
    alloc: Global,
    jmax: u64,
    past: &[LabEntry],
    address: u64,
    argument: u64,
    end: RunEnd,
) -> Result<bool, AllocError> {
    match play_journal(alloc, jmax, past)? {
        Played::Legal(replay) => Ok(end_at(&replay.plain, address, argument) == end),
        Played::WrongAt(_) => Ok(false),
    }
}
