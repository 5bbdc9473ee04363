mod steps;

use orc_ids::{DylibId, GenId, TrackId, UnitId};
use steps::{Step, play};
use tracker::{TrackError, Trackers};

const A: TrackId = TrackId(0);

const B: TrackId = TrackId(1);

const C: TrackId = TrackId(2);

const MAIN: DylibId = DylibId(0);

const LIB: DylibId = DylibId(3);

#[test]
fn a_tracker_gives_what_it_owns(rt: HostRuntime) {
    let steps = &[
        Step::Dylib(A, None),
        Step::Make(LIB, A),
        Step::Dylib(A, Some(LIB)),
        Step::AddUnit(A, UnitId(7)),
        Step::AddUnit(A, UnitId(5)),
        Step::AddGenerator(A, GenId(1)),
        Step::Owns(A, 2, 1),
        Step::NoTracker(B),
        Step::Take(A, LIB, &[UnitId(7), UnitId(5)], &[GenId(1)]),
        Step::Dylib(A, None),
    ];
    play(&rt, rt.alloc(), steps);
}

#[test]
fn all_that_one_owns_goes_behind_what_the_other_has(rt: HostRuntime) {
    let steps = &[
        Step::Make(MAIN, A),
        Step::Make(MAIN, B),
        Step::AddUnit(A, UnitId(0)),
        Step::AddUnit(B, UnitId(1)),
        Step::AddGenerator(A, GenId(0)),
        Step::Merge(B, B),
        Step::Merge(A, B),
        Step::Dylib(A, None),
        Step::Owner(GenId(0), Some(B)),
        Step::Owner(GenId(1), None),
        Step::Take(B, MAIN, &[UnitId(1), UnitId(0)], &[GenId(0)]),
    ];
    play(&rt, rt.alloc(), steps);
}

/// Makes as many trackers as there may be.
fn make_all(trackers: &mut Trackers) -> bool {
    for _ in 0..65_536 {
        if trackers.make(MAIN).is_err() {
            return false;
        }
    }
    true
}

#[test]
fn no_more_trackers_than_the_limit(rt: HostRuntime) {
    let mut trackers = Trackers::new(rt.alloc());
    assert!(rt; make_all(&mut trackers));
    assert!(rt; matches!(trackers.make(MAIN), Err(TrackError::TooMany)));
}

#[test]
fn memory_is_enough_for_trackers_of_nothing(rt: HostRuntime) {
    let steps = &[
        Step::Make(MAIN, A),
        Step::Make(MAIN, B),
        Step::Make(MAIN, C),
        Step::Merge(A, B),
        Step::AddGenerator(B, GenId(0)),
        Step::Merge(C, B),
        Step::Owns(B, 0, 1),
    ];
    play(&rt, rt.alloc(), steps);
}

#[test]
fn memory_is_enough_for_a_tracker_that_has_nothing_yet(rt: HostRuntime) {
    let steps = &[
        Step::Make(MAIN, A),
        Step::Make(MAIN, B),
        Step::AddGenerator(A, GenId(0)),
        Step::Merge(A, B),
        Step::Owns(B, 0, 1),
    ];
    play(&rt, rt.alloc(), steps);
}
