//! How a session ends in which steps were played.

ghost use Rattle.std.specs.Prelude.{◌≤◌};
ghost use Rattle.execution_session.specs.declared.session.TheConstants.{JOURNAL_LIMIT};
ghost use Rattle.turn_lock.specs.Handles.{turn_id, IsReady};

use super::steps::{Step, play};
use execution_session::Session;
use notifiers::Armed;
use orc_io::Note;
use session_model::UnitKind;
use shared_session::{Pass, Shared, close, open};
use std::alloc::Global;
use std::process::Abort;
use std::sync::Wait;

/// Ends a session that has no notifiers.
fn end<U: UnitKind, const JMAX: usize>(rt: &impl Abort, session: Session<U, Note, JMAX>) {
    let mut session = session;
    let back: Option<Armed<Note>> = session.give_back();
    let none = back.is_none();
    if let Some(armed) = back {
        let _object = armed.back();
    }
    assert!(rt; none);
    session.end();
}

/// How many entries a shared session has, which ends.
pub(super) fn entries<U: UnitKind, const JMAX: usize>(
    rt: &(impl Abort + Wait),
    shared: Shared<U, Note, JMAX>,
    pass: Pass<U, Note, JMAX>,
) -> usize
    requires { IsReady (turn_id shared) pass }
{
    let session = close(rt, shared, pass);
    let count = session.journal().len();
    end(rt, session);
    count
}

/// So many entries, where playing was not stopped; else the number of the step at which it was.
pub(super) fn count_of(stopped: Option<usize>, entries: usize) -> Result<usize, usize> {
    match stopped {
        Some(number) => Err(number),
        None => Ok(entries),
    }
}

/// Plays the steps of one pass in a session of their own: how many entries it has at its end, or the number of
/// the first step of which something else came than it says.
pub(super) fn played<U: UnitKind, const JMAX: usize>(
    rt: &(impl Abort + Wait),
    alloc: Global,
    units: &[U],
    steps: &[Step<'_>],
) -> Result<usize, usize>
    requires { JMAX ≤ JOURNAL_LIMIT }
{
    let Ok((shared, mut pass)) = open::<U, Note, JMAX>(alloc, 1) else {
        panic!(rt; "memory")
    };
    let stopped = play(rt, alloc, &shared, &mut pass, units, steps);
    count_of(stopped, entries(rt, shared, pass))
}
