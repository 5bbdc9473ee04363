//! The whole run.
ghost use Rattle.std.specs.Prelude.{◌≡◌, ◌≤◌, ◌+◌, ◌<◌, ◌^◌, List, [], All, None, map, vec_capacity, IfOk};
ghost use Rattle.session_model.specs.declared.entry.Entry.{Entry};
ghost use Rattle.shared_session.specs.Home.{IsLawful, IsPosted, seat_of};
ghost use Rattle.turn_lock.specs.Handles.{view, turn_id, IsReady};
ghost use Rattle.turn_lock.specs.Told.{Shows};
ghost use Rattle.crew.specs.Crew.{Says};
ghost use Rattle.linked_program.specs.Members.{AreMembers};
ghost use Rattle.link_worker.specs.First.{IsFirst};
ghost use Rattle.linked_program.specs.SetUps.{IsAt};
ghost use Rattle.linked_program.specs.Worked.{IsRunOf, MembersWorked};
ghost use Rattle.session_model.specs.State.{plain_history};
ghost use Rattle.execution_session.specs.declared.session.TheConstants.{JOURNAL_LIMIT};
ghost use Rattle.run_laws.specs.Ended.{IsRun};

use crate::client::ClientEnd;
use crate::concluding::{Outcome, conclude};
use crate::members::{Member, client_end, make_members};
use crate::setting_up::{SetUp, set_up};
use crew::Crew;
use execution_session::{JOURNAL_LIMIT, Session};
use link_worker::LinkedUnit;
use orc_ids::NameId;
use orc_io::{Gate, Note};
use run_laws::Linked;
use shared_session::{Pass, Shared, close, open};
use std::alloc::{AllocError, Global};
use std::sync::Wait;
use std::sync::atomic::AtomicU64;
use std::thread::Threads;

/// What a run links: the units, in the order in which they are defined, in a dylib of this name, and the
/// name of the entry.
#[derive(Drop)]
pub struct Program<U> {
    pub main: NameId,
    pub entry: NameId,
    pub units: Vec<U>,
}

/// Who works on a program, with the seats that they get.
type Members<'a, U, G, const JMAX: usize> = Crew<Pass<U, Note, JMAX>, Member<'a, G>>;

/// A session that was run through, and how that ended.
pub struct LinkedProgram<U: LinkedUnit, const JMAX: usize> {
    pub end: Linked,
    pub session: Session<U, Note, JMAX>,
}

/// What the client's lookup came to, of a program whose units are defined: the client and the workers work.
fn run_members<
    U: LinkedUnit + Send + Sync,
    G: Gate + Sync,
    R: Threads + Wait + Sync,
    const JMAX: usize,
>(
    rt: &R,
    shared: &Shared<U, Note, JMAX>,
    first: &mut Pass<U, Note, JMAX>,
    members: Members<'_, U, G, JMAX>,
    entry: NameId,
    workers: u32,
) -> ClientEnd
    requires ready { IsReady (turn_id shared.now) first.old }
    requires first { IsFirst U.meaning JMAX (view first.old) }
    requires seats { (view first.old).seats ≡ workers + 2 }
    requires members { AreMembers entry workers members }
    ensures ready { IsReady (turn_id shared.now) first.new }
    ensures worked { (log : List (Entry U)) → Says seat_of log (view first.new) →
        MembersWorked U.meaning JMAX workers entry (view first.old) log result }
{
    // These two are for the clauses.
    let _ = (entry, workers);
    client_end(members.work(rt, shared, first))
}

/// What was done with a program: its units are defined, and its entry is looked up.
fn run_program<
    U: LinkedUnit + Send + Sync,
    G: Gate + Sync,
    R: Threads + Wait + Sync,
    const JMAX: usize,
>(
    rt: &R,
    shared: &Shared<U, Note, JMAX>,
    first: &mut Pass<U, Note, JMAX>,
    members: Members<'_, U, G, JMAX>,
    program: Program<U>,
    workers: u32,
) -> Outcome
    requires ready { IsReady (turn_id shared.now) first.old }
    requires at { IsAt U.meaning JMAX [] (view first.old) }
    requires sources { All (λ u. (U.meaning u).source ≡ None) program.units.items }
    requires seats { (view first.old).seats ≡ workers + 2 }
    requires members { AreMembers program.entry workers members }
    ensures ready { IsReady (turn_id shared.now) first.new }
    ensures run { (log : List (Entry U)) → Shows seat_of (IsLawful U.meaning JMAX) (IsPosted U.meaning) log (view first.new) →
        IsRunOf U.meaning JMAX workers program.main program.entry (map U.meaning program.units.items) log result }
{
    let Program { main, entry, units } = program;
    match set_up(rt, shared, first, main, units) {
        SetUp::Done => Outcome::Client(run_members(rt, shared, first, members, entry, workers)),
        SetUp::Refused(unit) => Outcome::Refused(unit),
        SetUp::Stopped(stop) => Outcome::Stopped(stop),
    }
}

/// Runs a program's session, with so many workers on threads of their own.
pub fn link<
    U: LinkedUnit + Send + Sync,
    G: Gate + Sync,
    R: Threads + Wait + Sync,
    const JMAX: usize,
>(
    rt: &R,
    alloc: Global,
    program: Program<U>,
    gate: &G,
    workers: u32,
) -> Result<LinkedProgram<U, JMAX>, AllocError>
    requires limit { JMAX ≤ JOURNAL_LIMIT }
    requires few { workers + 2 < 2 ^ 32 }
    requires sources { All (λ u. (U.meaning u).source ≡ None) program.units.items }
    ensures { IfOk result (λ p. IsRun JMAX workers program.main program.entry
        (map U.meaning program.units.items) (plain_history U.meaning p.session.journal) p.end) }
{
    let ended = AtomicU64::new(0);
    let members = make_members(alloc, gate, program.entry, &ended, workers)?;
    let members = Crew::new(alloc, members)?;
    let (shared, first) = open(alloc, workers + 2)?;
    let mut first = first;
    let outcome = run_program(rt, &shared, &mut first, members, program, workers);
    let session = close(rt, shared, first);
    let end = conclude(outcome);
    Ok(LinkedProgram { end, session })
}
