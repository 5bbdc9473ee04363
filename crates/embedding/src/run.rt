//! What the example does with its session.

ghost use Rattle.std.specs.Prelude.{◌≡◌, None};
ghost use Rattle.turn_lock.specs.Handles.{view, turn_id, IsReady};
ghost use Rattle.link_worker.specs.Works.{IsFree};

use crate::session::{define, look_up, make_dylib, make_tracker};
use exec_run::{Ran, RunEnd, run};
use link_worker::LinkedUnit;
use orc_ids::{NameId, Stop};
use orc_io::Note;
use session_model::LookEnd;
use shared_session::{CopyMemory, Pass, Shared};
use std::alloc::{AllocError, Global};
use std::sync::Wait;
use thiserror::Error;

/// How many instructions the run may take.
const FUEL: u64 = 1_000;

/// Why nothing was run.
#[derive(Clone, Copy, Debug, PartialEq, Eq, Error)]
pub enum NotRun {
    #[error("a call of the set-up was stopped")]
    Stopped,
    #[error("the entry was not found")]
    NotFound,
    #[error("out of memory")]
    NoMemory,
}

impl From<Stop> for NotRun {
    fn from(_: Stop) -> NotRun {
        NotRun::Stopped
    }
}

impl From<AllocError> for NotRun {
    fn from(_: AllocError) -> NotRun {
        NotRun::NoMemory
    }
}

/// The address of the one name that was looked up.
fn address_of(end: &LookEnd) -> Option<u64> {
    match end {
        LookEnd::Found(matches) => matches.as_slice().first().copied()?.map(|found| found.1),
        _ => None,
    }
}

/// Runs what lies at an address of the session's memory.
fn run_at<U: LinkedUnit, R: Wait, const JMAX: usize>(
    rt: &R,
    alloc: Global,
    shared: &Shared<U, Note, JMAX>,
    pass: &mut Pass<U, Note, JMAX>,
    address: u64,
) -> Result<RunEnd, NotRun>
    requires ready { IsReady (turn_id shared.now) pass.old }
    ensures ready { IsReady (turn_id shared.now) pass.new }
{
    let copied = shared.perform(rt, pass, CopyMemory).image;
    let image = copied.ok_or(NotRun::Stopped)?;
    let Ran { end, .. } = run(alloc, &image, address, &[], FUEL)?;
    Ok(end)
}

/// The dylib is made and both units are defined in it.
fn set_up<U: LinkedUnit, R: Wait, const JMAX: usize>(
    rt: &R,
    shared: &Shared<U, Note, JMAX>,
    pass: &mut Pass<U, Note, JMAX>,
    library: NameId,
    first: U,
    second: U,
) -> Result<(), NotRun>
    requires ready { IsReady (turn_id shared.now) pass.old }
    requires free { IsFree U.meaning (view pass.old) }
    requires first { (U.meaning first).source ≡ None }
    requires second { (U.meaning second).source ≡ None }
    ensures ready { IsReady (turn_id shared.now) pass.new }
    ensures free { IsFree U.meaning (view pass.new) }
{
    let _dylib = make_dylib(rt, shared, pass, library)?;
    let _tracker = make_tracker(rt, shared, pass)?;
    let _defined = define(rt, shared, pass, first)?;
    let _other = define(rt, shared, pass, second)?;
    Ok(())
}

/// Links two units that need each other, and runs the entry.
pub fn link_and_run<U: LinkedUnit, R: Wait, const JMAX: usize>(
    rt: &R,
    alloc: Global,
    shared: &Shared<U, Note, JMAX>,
    pass: &mut Pass<U, Note, JMAX>,
    units: (U, U),
    entry: NameId,
) -> Result<RunEnd, NotRun>
    requires ready { IsReady (turn_id shared.now) pass.old }
    requires free { IsFree U.meaning (view pass.old) }
    requires first { (U.meaning units.0).source ≡ None }
    requires second { (U.meaning units.1).source ≡ None }
    ensures ready { IsReady (turn_id shared.now) pass.new }
{
    let (first, second) = units;
    set_up(rt, shared, pass, entry, first, second)?;
    let end = look_up(rt, alloc, shared, pass, entry);
    let address = address_of(&end).ok_or(NotRun::NotFound)?;
    run_at(rt, alloc, shared, pass, address)
}
