ghost use Rattle.std.specs.Prelude.{IsSome};
ghost use Rattle.std.specs.Bool.{OnTrue};
ghost use Rattle.tracker.specs.Owners.{owned_by};

use orc_ids::{DylibId, GenId, TrackId, UnitId};
use std::alloc::Global;
use std::collections::LinkedList;
use std::process::Abort;
use tracker::{Owned, Trackers};

/// What trackers are told, or asked with what is answered.
#[derive(Drop)]
pub(super) enum Step<'a> {
    /// A tracker of this dylib is made, and gets this number.
    Make(DylibId, TrackId),
    /// The tracker gets this unit.
    AddUnit(TrackId, UnitId),
    /// The tracker gets this generator.
    AddGenerator(TrackId, GenId),
    /// All that the first one owns goes to the second one.
    Merge(TrackId, TrackId),
    /// The tracker is taken, and gives its dylib, its units and its generators.
    Take(TrackId, DylibId, &'a [UnitId], &'a [GenId]),
    /// The tracker's dylib, if the tracker is there.
    Dylib(TrackId, Option<DylibId>),
    /// The tracker owns so many units, and so many generators.
    Owns(TrackId, usize, usize),
    /// The tracker isn't there.
    NoTracker(TrackId),
    /// The tracker that has the generator.
    Owner(GenId, Option<TrackId>),
}

/// Whether the tracker is there.
fn is_there(trackers: &Trackers, t: TrackId) -> bool
    ensures { OnTrue result (IsSome (owned_by trackers.now t)) }
{
    trackers.owned(t).is_some()
}

fn make(trackers: &mut Trackers, d: DylibId, t: TrackId) -> bool {
    matches!(trackers.make(d), Ok(made) if made == t)
}

fn add_unit(trackers: &mut Trackers, t: TrackId, u: UnitId) -> bool {
    if !is_there(trackers, t) || trackers.room(t).is_err() {
        return false;
    }
    trackers.add_unit(t, u);
    true
}

fn add_generator(trackers: &mut Trackers, t: TrackId, g: GenId) -> bool {
    if !is_there(trackers, t) {
        return false;
    }
    match trackers.owner(g) {
        None => trackers.add_generator(t, g).is_ok(),
        Some(_) => false,
    }
}

fn merge(trackers: &mut Trackers, from: TrackId, to: TrackId) -> bool {
    is_there(trackers, from) && is_there(trackers, to) && trackers.merge(from, to).is_ok()
}

/// Whether a list has these units alone.
fn has_units(list: &mut LinkedList<UnitId>, units: &[UnitId]) -> bool {
    for u in units {
        if list.pop_front() != Some(*u) {
            return false;
        }
    }
    list.is_empty()
}

/// Whether a list has these generators alone.
fn has_generators(list: &mut LinkedList<GenId>, generators: &[GenId]) -> bool {
    for g in generators {
        if list.pop_front() != Some(*g) {
            return false;
        }
    }
    list.is_empty()
}

/// Takes a tracker that owns just these.
fn take(
    trackers: &mut Trackers,
    t: TrackId,
    d: DylibId,
    units: &[UnitId],
    generators: &[GenId],
) -> bool {
    if !is_there(trackers, t) {
        return false;
    }
    let mut owned = trackers.take(t);
    owned.dylib == d
        && has_units(&mut owned.units, units)
        && has_generators(&mut owned.generators, generators)
}

/// Whether the tracker owns so many units and generators.
fn owns(trackers: &Trackers, t: TrackId, units: usize, generators: usize) -> bool {
    match trackers.owned(t) {
        Some(owned) => owned.units.len() == units && owned.generators.len() == generators,
        None => false,
    }
}

/// Whether the step is done, or answered, as it says.
fn is_done(trackers: &mut Trackers, step: &Step) -> bool {
    match step {
        Step::Make(d, t) => make(trackers, *d, *t),
        Step::AddUnit(t, u) => add_unit(trackers, *t, *u),
        Step::AddGenerator(t, g) => add_generator(trackers, *t, *g),
        Step::Merge(from, to) => merge(trackers, *from, *to),
        Step::Take(t, d, units, generators) => take(trackers, *t, *d, units, generators),
        Step::Dylib(t, d) => trackers.dylib(*t) == *d,
        Step::Owns(t, units, generators) => owns(trackers, *t, *units, *generators),
        Step::NoTracker(t) => trackers.owned(*t).is_none(),
        Step::Owner(g, t) => trackers.owner(*g) == *t,
    }
}

/// The first step that isn't done, or answered, as it says.
fn first_wrong(alloc: Global, steps: &[Step]) -> Option<usize> {
    let mut trackers = Trackers::new(alloc);
    for (k, step) in steps.iter().enumerate() {
        if !is_done(&mut trackers, step) {
            return Some(k);
        }
    }
    None
}

/// Plays the steps on no trackers. Each is done, or answered, as it says.
pub(super) fn play(rt: &impl Abort, alloc: Global, steps: &[Step]) {
    assert_eq!(rt; first_wrong(alloc, steps), None);
}
