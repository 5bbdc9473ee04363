ghost use Rattle.std.specs.Prelude.{◌<◌, length};
ghost use Rattle.std.specs.Bool.{OnTrue};
ghost use Rattle.mat_unit.specs.Roster.{CanStart, CanFinish};

use mat_unit::{Unit, Units};
use orc_ids::{DylibId, Items, QueryId, SeatNo, UNIT_LIMIT, UnitId};
use session_model::{Job, UnitPhase};
use std::alloc::{AllocError, Global};
use std::collections::LinkedList;
use std::process::Abort;

/// What becomes of one unit.
#[derive(Drop)]
pub(super) enum Change {
    /// Its job Start is listed.
    List,
    /// A seat takes its job Start.
    Start(SeatNo),
    /// It has a place in memory.
    Place(u64),
    /// Its instances have addresses.
    Resolve,
    /// It takes the address of its target.
    Bind(u64),
    /// It waits for its link query.
    Wait(QueryId),
    /// Its job Finish is listed.
    Link,
    /// A seat takes its job Finish, with no bindings.
    Finish(SeatNo),
    /// Its bytes are in memory.
    Complete,
    /// It is given up.
    Fail,
    /// It is removed.
    Remove,
    /// A seat lets it go.
    LetGo(SeatNo),
    /// The name that it offers here isn't its own any longer.
    LoseName(u32),
    /// Its listed jobs are dropped.
    DropJobs,
}

/// What is known of one unit.
#[derive(Drop)]
pub(super) enum State<'a> {
    /// How far it has come.
    Phase(UnitPhase),
    /// The seat that holds it.
    Seat(Option<u32>),
    /// Where it is placed.
    Base(Option<u64>),
    /// Its link query.
    Query(Option<u32>),
    /// Which of its names are its own.
    Live(&'a [bool]),
}

/// What units are told, or asked with what is answered.
#[derive(Drop)]
pub(super) enum Step<'a> {
    /// This is added, defined in this dylib with these of its names, and gets this number.
    Add(u8, DylibId, &'a [bool], UnitId),
    /// This becomes of the unit.
    Change(UnitId, Change),
    /// This is known of the unit.
    Is(UnitId, State<'a>),
    /// There is no unit of this number.
    NoUnit(UnitId),
    /// The oldest job that is listed.
    First(Option<Job>),
    /// How many units a seat holds.
    Held(u32),
    /// How many units there are.
    Len(usize),
}

/// Adds a unit, if there is room for it.
fn add(
    alloc: Global,
    units: &mut Units<u8>,
    unit: u8,
    dylib: DylibId,
    live: &[bool],
) -> Result<UnitId, AllocError> {
    if units.len() >= UNIT_LIMIT {
        return Err(AllocError);
    }
    units.room()?;
    let live = Items::from_vec(live.to_vec(alloc)?);
    Ok(units.add(unit, dylib, live))
}

/// Whether the unit's job Start can be listed.
fn can_start(units: &Units<u8>, u: UnitId) -> bool
    ensures { OnTrue result (CanStart units.now u) }
{
    match units.get(u) {
        Some(unit) => unit.can_start,
        None => false,
    }
}

/// Whether the unit's job Finish can be listed.
fn can_finish(units: &Units<u8>, u: UnitId) -> bool
    ensures { OnTrue result (CanFinish units.now u) }
{
    match units.get(u) {
        Some(unit) => unit.can_finish,
        None => false,
    }
}

fn list(units: &mut Units<u8>, u: UnitId) -> bool {
    if !can_start(units, u) {
        return false;
    }
    units.list(u);
    true
}

fn link(units: &mut Units<u8>, u: UnitId) -> bool {
    if !can_finish(units, u) {
        return false;
    }
    units.link(u);
    true
}

/// Drops the jobs of one unit.
fn drop_jobs(alloc: Global, units: &mut Units<u8>, u: UnitId) -> bool
    requires { u.0 < length units.old.units }
{
    let mut gone = LinkedList::new(alloc);
    if gone.push_back(u).is_err() {
        return false;
    }
    units.drop_jobs(&gone);
    true
}

/// A unit goes on with its memory and its seat.
fn go_on(units: &mut Units<u8>, u: UnitId, change: &Change) -> bool
    requires { u.0 < length units.old.units }
{
    match change {
        Change::Start(s) => units.start(u, *s),
        Change::Place(base) => units.place(u, *base),
        Change::Resolve => units.resolve(u),
        Change::Bind(base) => units.bind(u, *base),
        Change::Wait(query) => units.wait(u, *query),
        Change::Finish(s) => units.finish(u, *s, None),
        Change::Complete => units.done(u),
        Change::Fail => units.fail(u),
        Change::Remove => units.remove(u),
        Change::LetGo(s) => units.let_go(u, *s),
        Change::LoseName(k) => units.lose_name(u, *k),
        _ => return false,
    }
    true
}

/// What the step says becomes of the unit, if it is there.
fn becomes(alloc: Global, units: &mut Units<u8>, u: UnitId, change: &Change) -> bool {
    if u.0 as usize >= units.len() {
        return false;
    }
    match change {
        Change::List => list(units, u),
        Change::Link => link(units, u),
        Change::DropJobs => drop_jobs(alloc, units, u),
        _ => go_on(units, u, change),
    }
}

/// Whether that is known of a unit.
fn has_state(unit: &Unit<u8>, state: &State) -> bool {
    match state {
        State::Phase(phase) => unit.phase == *phase,
        State::Seat(seat) => unit.seat == *seat,
        State::Base(base) => unit.base == *base,
        State::Query(query) => unit.query == *query,
        State::Live(live) => unit.live.as_slice() == *live,
    }
}

/// Whether that is known of the unit of this number.
fn is_so(units: &Units<u8>, u: UnitId, state: &State) -> bool {
    match units.get(u) {
        Some(unit) => has_state(unit, state),
        None => false,
    }
}

/// Whether the step is done, or answered, as it says.
fn is_done(alloc: Global, units: &mut Units<u8>, step: &Step) -> bool {
    match step {
        Step::Add(unit, dylib, live, u) => add(alloc, units, *unit, *dylib, live) == Ok(*u),
        Step::Change(u, change) => becomes(alloc, units, *u, change),
        Step::Is(u, state) => is_so(units, *u, state),
        Step::NoUnit(u) => units.get(*u).is_none(),
        Step::First(job) => units.first() == *job,
        Step::Held(count) => units.held() == *count,
        Step::Len(count) => units.len() == *count,
    }
}

/// The first step that isn't done, or answered, as it says.
fn first_wrong(alloc: Global, steps: &[Step]) -> Option<usize> {
    let mut units = Units::new(alloc);
    for (k, step) in steps.iter().enumerate() {
        if !is_done(alloc, &mut units, step) {
            return Some(k);
        }
    }
    None
}

/// Plays the steps on no units. Each is done, or answered, as it says.
pub(super) fn play(rt: &impl Abort, alloc: Global, steps: &[Step]) {
    assert_eq!(rt; first_wrong(alloc, steps), None);
}
