mod notices;
mod steps;

use orc_ids::{End, InstId, Level, Outcome, QueryId, UnitId};
use std::alloc::Global;
use std::process::Abort;
use steps::{First, Known, Lookup, Step, play};

/// A lookup of the first instance until it is ready.
const LOOKUP: Lookup = Lookup {
    matched: &[Some(InstId(0))],
    level: Level::Ready,
    unit: Some(3),
    note: Some(2),
};

/// The first instance came to be ready.
const READY: First = First {
    failed: false,
    ready: true,
};

/// The first instance failed.
const FAILED: First = First {
    failed: true,
    ready: false,
};

/// The lookup was found by entry 5.
const FOUND: Outcome = Outcome {
    query: QueryId(0),
    end: End::Found(5),
};

/// The lookup failed by entry 5.
const LOST: Outcome = Outcome {
    query: QueryId(0),
    end: End::Failed(5, InstId(0)),
};

/// The address of the first instance, where it was matched.
const FIRST: Option<(InstId, u64)> = Some((InstId(0), 64));

#[test]
fn an_open_lookup_gives_its_notifier_back(rt: HostRuntime) {
    let steps = &[
        Step::Lookup(0, Known::Open),
        Step::Lookup(1, Known::Nothing),
        Step::Unit(None),
        Step::GivenBack(true),
    ];
    play(&rt, rt.alloc(), &LOOKUP, None, steps);
}

#[test]
fn a_lookup_settles_and_fires_its_notifier(rt: HostRuntime) {
    let steps = &[
        Step::Told(2, FOUND),
        Step::NobodyTold,
        Step::Lookup(0, Known::Found(5, &[FIRST])),
        Step::Unit(Some(UnitId(3))),
        Step::Unit(None),
    ];
    play(&rt, rt.alloc(), &LOOKUP, Some(&READY), steps);
}

#[test]
fn a_lookup_of_a_failed_instance_fails(rt: HostRuntime) {
    let steps = &[
        Step::Told(2, LOST),
        Step::Lookup(0, Known::Failed(5, InstId(0))),
        Step::Unit(Some(UnitId(3))),
    ];
    play(&rt, rt.alloc(), &LOOKUP, Some(&FAILED), steps);
}

/// A lookup of these matches is found once the first instance is ready, at each level, with a unit
/// and without one.
fn each_is_found(
    rt: &impl Abort,
    alloc: Global,
    matched: &[Option<InstId>],
    addresses: &[Option<(InstId, u64)>],
) {
    for level in [Level::Resolved, Level::Ready] {
        for unit in [None, Some(3)] {
            let lookup = Lookup {
                matched,
                level,
                unit,
                note: None,
            };
            let steps = [Step::Lookup(0, Known::Found(5, addresses))];
            play(rt, alloc, &lookup, Some(&READY), &steps);
        }
    }
}

#[test]
fn memory_is_enough_for_each_lookup(rt: HostRuntime) {
    let alloc = rt.alloc();
    let first = Some(InstId(0));
    each_is_found(&rt, alloc, &[], &[]);
    each_is_found(&rt, alloc, &[None], &[None]);
    each_is_found(&rt, alloc, &[first], &[FIRST]);
    each_is_found(&rt, alloc, &[first, None, first], &[FIRST, None, FIRST]);
}
