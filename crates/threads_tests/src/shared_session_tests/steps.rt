//! What a pass does, and what is answered.

ghost use Rattle.turn_lock.specs.Handles.{turn_id, IsReady};

use super::calls::{
    asks, attaches, copies, gives_up, reads, removes, sets_order, takes, tries_dylib,
};
use notifiers::FiredList;
use orc_ids::{DylibId, GenId, Level, NameId, OrderItem, QueryId, Stop, TrackId, Wanted};
use orc_io::Note;
use session_model::{Reply, UnitKind};
use shared_session::{Collect, Generate, MakeDylib, MakeTracker, MoveTracker, Pass, Shared};
use std::alloc::Global;
use std::sync::Wait;

/// A call of a pass, with the text of its answer, or what a pass sees.
#[derive(Drop)]
pub(super) enum Step<'a> {
    /// A dylib of the one name is made.
    Dylib(&'a str),
    /// So it is, if the turn is free.
    TryDylib(&'a str),
    /// A tracker of the first dylib is made.
    Tracker(&'a str),
    /// A generator of the first unit is attached to it.
    Attach(&'a str),
    /// Its order is set.
    Order(&'a [OrderItem], &'a str),
    /// Names are looked up in an order at a level.
    Ask(&'a [OrderItem], &'a [Wanted], Level, &'a str),
    /// So they are, with a notifier of this note.
    Watch(u32, &'a [OrderItem], &'a [Wanted], Level, &'a str),
    /// The first generator is used.
    Generate(&'a str),
    /// The end of the query of this number is asked for.
    Collect(u32, &'a str),
    /// The first unit is taken.
    Take(&'a str),
    /// It is given up for want of memory.
    GiveUp(&'a str),
    /// All that the first tracker has is moved to the second.
    Move(&'a str),
    /// What the tracker of this number has is removed.
    Remove(u32, &'a str),
    /// The memory, where nothing is, is copied.
    Copy,
    /// The history has so many entries.
    Front(u64),
}

/// A dylib of the one name is made.
fn makes_dylib<U: UnitKind, R: Wait, const JMAX: usize>(
    rt: &R,
    shared: &Shared<U, Note, JMAX>,
    pass: &mut Pass<U, Note, JMAX>,
) -> Result<Reply, Stop>
    requires { IsReady (turn_id shared.now) pass.old }
    ensures { IsReady (turn_id shared.now) pass.new }
{
    shared.perform(rt, pass, MakeDylib { name: NameId(7) })
}

/// A tracker of the first dylib is made.
fn makes_tracker<U: UnitKind, R: Wait, const JMAX: usize>(
    rt: &R,
    shared: &Shared<U, Note, JMAX>,
    pass: &mut Pass<U, Note, JMAX>,
) -> Result<Reply, Stop>
    requires { IsReady (turn_id shared.now) pass.old }
    ensures { IsReady (turn_id shared.now) pass.new }
{
    shared.perform(rt, pass, MakeTracker { dylib: DylibId(0) })
}

/// The first generator is used.
fn generates<U: UnitKind, R: Wait, const JMAX: usize>(
    rt: &R,
    shared: &Shared<U, Note, JMAX>,
    pass: &mut Pass<U, Note, JMAX>,
) -> Result<Reply, Stop>
    requires { IsReady (turn_id shared.now) pass.old }
    ensures { IsReady (turn_id shared.now) pass.new }
{
    let generator = GenId(0);
    shared.perform(rt, pass, Generate { generator })
}

/// The end of the query is asked for.
fn collects<U: UnitKind, R: Wait, const JMAX: usize>(
    rt: &R,
    shared: &Shared<U, Note, JMAX>,
    pass: &mut Pass<U, Note, JMAX>,
    query: QueryId,
) -> Result<Reply, Stop>
    requires { IsReady (turn_id shared.now) pass.old }
    ensures { IsReady (turn_id shared.now) pass.new }
{
    shared.perform(rt, pass, Collect { query })
}

/// All that the first tracker has is moved to the second.
fn moves<U: UnitKind, R: Wait, const JMAX: usize>(
    rt: &R,
    shared: &Shared<U, Note, JMAX>,
    pass: &mut Pass<U, Note, JMAX>,
) -> Result<Reply, Stop>
    requires { IsReady (turn_id shared.now) pass.old }
    ensures { IsReady (turn_id shared.now) pass.new }
{
    let call = MoveTracker {
        from: TrackId(0),
        to: TrackId(1),
    };
    shared.perform(rt, pass, call)
}

/// What the step says is answered.
pub(super) fn is_answered<U: UnitKind, R: Wait, const JMAX: usize>(
    rt: &R,
    alloc: Global,
    shared: &Shared<U, Note, JMAX>,
    pass: &mut Pass<U, Note, JMAX>,
    units: &[U],
    heard: &mut FiredList<Note>,
    step: &Step<'_>,
) -> bool
    requires { IsReady (turn_id shared.now) pass.old }
    ensures { IsReady (turn_id shared.now) pass.new }
{
    match step {
        Step::Dylib(text) => reads(alloc, makes_dylib(rt, shared, pass), text),
        Step::TryDylib(text) => tries_dylib(alloc, shared, pass, text),
        Step::Tracker(text) => reads(alloc, makes_tracker(rt, shared, pass), text),
        Step::Attach(text) => attaches(rt, alloc, shared, pass, units, text),
        Step::Order(order, text) => sets_order(rt, alloc, shared, pass, order, text),
        Step::Ask(order, wanted, level, text) => {
            let level = *level;
            asks(
                rt, alloc, shared, pass, heard, None, order, wanted, level, text,
            )
        }
        Step::Watch(note, order, wanted, level, text) => {
            let (note, level) = (Some(*note), *level);
            asks(
                rt, alloc, shared, pass, heard, note, order, wanted, level, text,
            )
        }
        Step::Generate(text) => reads(alloc, generates(rt, shared, pass), text),
        Step::Collect(query, text) => {
            reads(alloc, collects(rt, shared, pass, QueryId(*query)), text)
        }
        Step::Take(text) => takes(rt, alloc, shared, pass, text),
        Step::GiveUp(text) => gives_up(rt, alloc, shared, pass, heard, text),
        Step::Move(text) => reads(alloc, moves(rt, shared, pass), text),
        Step::Remove(tracker, text) => {
            removes(rt, alloc, shared, pass, heard, TrackId(*tracker), text)
        }
        Step::Copy => copies(rt, shared, pass),
        Step::Front(entries) => shared.front(pass) == *entries,
    }
}

/// Plays the steps up to the first of which something else comes: the number of that one, if there is one.
pub(super) fn play<U: UnitKind, R: Wait, const JMAX: usize>(
    rt: &R,
    alloc: Global,
    shared: &Shared<U, Note, JMAX>,
    pass: &mut Pass<U, Note, JMAX>,
    units: &[U],
    steps: &[Step<'_>],
) -> Option<usize>
    requires { IsReady (turn_id shared.now) pass.old }
    ensures { IsReady (turn_id shared.now) pass.new }
{
    let mut heard = FiredList::new();
    for (number, step) in steps.iter().enumerate() {
        if !is_answered(rt, alloc, shared, pass, units, &mut heard, step) {
            return Some(number);
        }
    }
    None
}
