//! Steps of a pass, played in a session of their own.

ghost use Rattle.std.specs.Prelude.{◌≤◌};
ghost use Rattle.execution_session.specs.declared.session.TheConstants.{JOURNAL_LIMIT};
ghost use Rattle.turn_lock.specs.Handles.{view, turn_id, IsReady};
ghost use Rattle.link_worker.specs.Works.{IsFree};

use super::preparing::{attaches_one, defines_one, makes_dylib, makes_tracker};
use code_memory::Image;
use exec_run::{Ran, RunEnd, run};
use execution_session::Session;
use link_worker::{LinkedUnit, Looked, Worked, lookup, work_one};
use notifiers::{Armed, FiredList};
use orc_ids::{DylibId, InstId, Level, NameId, ORDER_LIMIT, OrderItem, WANTED_LIMIT, Wanted};
use orc_io::{Note, OpenGate};
use session_model::{LookEnd, UnitKind};
use shared_session::{CopyMemory, Pass, Shared, close, open};
use std::alloc::{AllocError, Global};
use std::process::Abort;
use std::sync::Wait;

/// How a lookup is to end.
#[derive(Drop)]
pub(super) enum End {
    /// With so many matches, of which this is the last.
    Found(usize, Option<(InstId, u64)>),
    Missing(NameId),
    NoDylib(DylibId),
    JournalFull(u64),
}

/// What a pass does, and what comes of it.
#[derive(Drop)]
pub(super) enum Step<'a> {
    /// The first dylib is made.
    Dylib,
    /// Its tracker is made.
    Tracker,
    /// A generator of the unit of this number is attached to the dylib.
    Attach(usize),
    /// The unit of this number is defined in it.
    Define(usize),
    /// Names are looked up in an order at a level.
    Look(&'a [OrderItem], &'a [Wanted], Level, End),
    /// So they are, and the end is told to a notifier with this note.
    Watch(u32, &'a [OrderItem], &'a [Wanted], Level, End),
    /// No job is listed.
    Idle,
    /// The memory from the start of code memory is run with so much fuel.
    Run(u64, RunEnd),
}

/// A notifier with this note, if there is to be one.
fn arm(alloc: Global, note: Option<u32>) -> Result<Option<Armed<Note>>, AllocError> {
    match note {
        Some(note) => Ok(Some(Armed::new(alloc, note, Note::new(note))?)),
        None => Ok(None),
    }
}

/// The last of a lookup's matches: none too where there is none.
fn last_of(matches: &[Option<(InstId, u64)>]) -> Option<(InstId, u64)> {
    match matches {
        [.., last] => *last,
        [] => None,
    }
}

/// The lookup ended so.
fn has_ended(end: &LookEnd, so: &End) -> bool {
    match (end, so) {
        (LookEnd::Found(matches), End::Found(count, last)) => {
            matches.len() == *count && last_of(matches.as_slice()) == *last
        }
        (LookEnd::Missing(name), End::Missing(missing)) => name == missing,
        (LookEnd::NoDylib(dylib), End::NoDylib(absent)) => dylib == absent,
        (LookEnd::JournalFull(len), End::JournalFull(full)) => len == full,
        _ => false,
    }
}

/// The lookup of the names in the order ends so.
fn looks<U: LinkedUnit, R: Wait, const JMAX: usize>(
    rt: &R,
    alloc: Global,
    shared: &Shared<U, Note, JMAX>,
    pass: &mut Pass<U, Note, JMAX>,
    order: &[OrderItem],
    wanted: &[Wanted],
    level: Level,
    note: Option<u32>,
    so: &End,
) -> bool
    requires ready { IsReady (turn_id shared.now) pass.old }
    requires free { IsFree U.meaning (view pass.old) }
    ensures ready { IsReady (turn_id shared.now) pass.new }
    ensures free { IsFree U.meaning (view pass.new) }
{
    if order.len() > ORDER_LIMIT || wanted.len() > WANTED_LIMIT {
        return false;
    }
    let Ok(then) = arm(alloc, note) else {
        return false;
    };
    let mut fired = FiredList::new();
    let Looked { end, back } = lookup(
        rt, alloc, shared, pass, order, wanted, level, then, &OpenGate, &mut fired,
    );
    if let Some(armed) = back {
        let _object = armed.back();
    }
    has_ended(&end, so)
}

/// No job is listed.
fn is_idle<U: LinkedUnit, R: Wait, const JMAX: usize>(
    rt: &R,
    alloc: Global,
    shared: &Shared<U, Note, JMAX>,
    pass: &mut Pass<U, Note, JMAX>,
) -> bool
    requires ready { IsReady (turn_id shared.now) pass.old }
    requires free { IsFree U.meaning (view pass.old) }
    ensures ready { IsReady (turn_id shared.now) pass.new }
    ensures free { IsFree U.meaning (view pass.new) }
{
    let mut fired = FiredList::new();
    let worked = work_one(rt, alloc, shared, pass, &OpenGate, &mut fired);
    matches!(worked, Worked::Idle)
}

/// A copy of the memory.
fn copies<U: LinkedUnit, R: Wait, const JMAX: usize>(
    rt: &R,
    shared: &Shared<U, Note, JMAX>,
    pass: &mut Pass<U, Note, JMAX>,
) -> Option<Image>
    requires ready { IsReady (turn_id shared.now) pass.old }
    requires free { IsFree U.meaning (view pass.old) }
    ensures ready { IsReady (turn_id shared.now) pass.new }
    ensures free { IsFree U.meaning (view pass.new) }
{
    shared.perform(rt, pass, CopyMemory).image
}

/// A run of the image from the start of code memory ends so.
fn runs(alloc: Global, image: Option<Image>, fuel: u64, so: RunEnd) -> bool {
    let Some(image) = image else {
        return false;
    };
    match run(alloc, &image, 0x1000_0000, &[], fuel) {
        Ok(Ran { end, .. }) => end == so,
        Err(_) => false,
    }
}

/// What the step says comes of it.
fn is_answered<U: LinkedUnit, R: Wait, const JMAX: usize>(
    rt: &R,
    alloc: Global,
    shared: &Shared<U, Note, JMAX>,
    pass: &mut Pass<U, Note, JMAX>,
    units: &[U],
    step: &Step<'_>,
) -> bool
    requires ready { IsReady (turn_id shared.now) pass.old }
    requires free { IsFree U.meaning (view pass.old) }
    ensures ready { IsReady (turn_id shared.now) pass.new }
    ensures free { IsFree U.meaning (view pass.new) }
{
    match step {
        Step::Dylib => makes_dylib(rt, shared, pass).is_ok(),
        Step::Tracker => makes_tracker(rt, shared, pass).is_ok(),
        Step::Attach(unit) => attaches_one(rt, alloc, shared, pass, units, *unit),
        Step::Define(unit) => defines_one(rt, alloc, shared, pass, units, *unit),
        Step::Look(order, wanted, level, so) => {
            looks(rt, alloc, shared, pass, order, wanted, *level, None, so)
        }
        Step::Watch(note, order, wanted, level, so) => {
            let note = Some(*note);
            looks(rt, alloc, shared, pass, order, wanted, *level, note, so)
        }
        Step::Idle => is_idle(rt, alloc, shared, pass),
        Step::Run(fuel, so) => runs(alloc, copies(rt, shared, pass), *fuel, *so),
    }
}

/// Plays the steps up to the first of which comes something else: the number of that one, if there is one.
fn play<U: LinkedUnit, R: Wait, const JMAX: usize>(
    rt: &R,
    alloc: Global,
    shared: &Shared<U, Note, JMAX>,
    pass: &mut Pass<U, Note, JMAX>,
    units: &[U],
    steps: &[Step<'_>],
) -> Option<usize>
    requires ready { IsReady (turn_id shared.now) pass.old }
    requires free { IsFree U.meaning (view pass.old) }
    ensures ready { IsReady (turn_id shared.now) pass.new }
{
    for (number, next) in steps.iter().enumerate() {
        if !is_answered(rt, alloc, shared, pass, units, next) {
            return Some(number);
        }
    }
    None
}

/// Ends a session that has no notifiers.
fn end_session<U: UnitKind, const JMAX: usize>(rt: &impl Abort, session: Session<U, Note, JMAX>) {
    let mut session = session;
    let back: Option<Armed<Note>> = session.give_back();
    let none = back.is_none();
    if let Some(armed) = back {
        let _object = armed.back();
    }
    assert!(rt; none);
    session.end();
}

/// How many entries a shared session has, which ends.
fn entries<U: UnitKind, const JMAX: usize>(
    rt: &(impl Abort + Wait),
    shared: Shared<U, Note, JMAX>,
    pass: Pass<U, Note, JMAX>,
) -> usize
    requires { IsReady (turn_id shared) pass }
{
    let session = close(rt, shared, pass);
    let count = session.journal().len();
    end_session(rt, session);
    count
}

/// Plays the steps in a session of their own: how many entries it has at its end, or the number of the first
/// step of which something else came than it says.
pub(super) fn played<U: LinkedUnit, const JMAX: usize>(
    rt: &(impl Abort + Wait),
    alloc: Global,
    units: &[U],
    steps: &[Step<'_>],
) -> Result<usize, usize>
    requires { JMAX ≤ JOURNAL_LIMIT }
{
    let Ok((shared, mut pass)) = open::<U, Note, JMAX>(alloc, 1) else {
        panic!(rt; "memory")
    };
    let stopped = play(rt, alloc, &shared, &mut pass, units, steps);
    let count = entries(rt, shared, pass);
    match stopped {
        Some(number) => Err(number),
        None => Ok(count),
    }
}
