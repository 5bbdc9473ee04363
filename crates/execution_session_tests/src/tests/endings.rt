//! Units that are removed or given up while they are held.

use super::calls::Call;
use super::play::Step::By;
use super::play::{Table, plays};
use super::units::FIRST;
use super::{OTHER, PLACED, PREPARED, SEAT, SETUP, WAITS};

/// What the removal is answered, with what it tells.
const REMOVAL: &str =
    "Ok(Removed), 3 hears Some(Outcome { query: QueryId(0), end: Failed(7, InstId(0)) })";

const REMOVED: Table = &[
    By(SEAT, Call::LookUp(0, Some(3)), WAITS),
    By(SEAT, Call::TakeAndPlace(0), "Ok(Placed(268435456))"),
    By(SETUP, Call::Remove(0), REMOVAL),
    By(SEAT, Call::Resolve, "Ok(Defunct(UnitId(0)))"),
    By(SEAT, Call::Collect(0), "Ok(Lost(7, InstId(0)))"),
];

/// The same name is defined with another tracker, and its unit gets the same place.
const BEGUN_AGAIN: Table = &[
    By(SETUP, Call::Tracker(0), "Ok(Tracker(TrackId(1)))"),
    By(
        SETUP,
        Call::Define(0, 1, FIRST),
        "Ok(Defined(UnitId(1), InstId(1), 1))",
    ),
    By(SEAT, Call::LookUp(0, None), "Ok(Pending(QueryId(1)))"),
    By(SEAT, Call::TakeAndPlace(1), "Ok(Placed(268435456))"),
];

#[test]
fn a_unit_that_is_held_is_removed(rt: HostRuntime) {
    let tables = &[PREPARED, REMOVED, BEGUN_AGAIN];
    plays::<64>(&rt, rt.alloc(), tables, "entries: 14");
}

/// A second tracker takes over what the first one has, while a unit of it is held.
const MOVED: Table = &[
    By(SETUP, Call::Tracker(0), "Ok(Tracker(TrackId(1)))"),
    By(SEAT, Call::LookUp(0, Some(3)), WAITS),
    By(SEAT, Call::TakeAndPlace(0), "Ok(Placed(268435456))"),
    By(SETUP, Call::MoveTracker(0, 1), "Ok(Moved)"),
    By(SETUP, Call::Remove(0), "Ok(TrackerGone(TrackId(0)))"),
];

/// What its emission is answered, with what it tells.
const MOVED_EMISSION: &str =
    "Ok(Emitted), 3 hears Some(Outcome { query: QueryId(0), end: Found(13) })";

/// The unit goes on to its end.
const GOES_ON: Table = &[
    By(SEAT, Call::Resolve, "Ok(Resolved)"),
    By(SEAT, Call::Link, "Ok(Done(QueryId(1)))"),
    By(SEAT, Call::TakeAndEmit, MOVED_EMISSION),
];

#[test]
fn a_unit_that_is_held_goes_on_under_another_tracker(rt: HostRuntime) {
    let tables = &[PREPARED, MOVED, GOES_ON];
    plays::<64>(&rt, rt.alloc(), tables, "entries: 13");
}

/// What the second tracker's removal is answered, with what it tells.
const MOVED_REMOVAL: &str =
    "Ok(Removed), 3 hears Some(Outcome { query: QueryId(0), end: Failed(10, InstId(0)) })";

/// It goes with what the second tracker has.
const GOES_WITH_IT: Table = &[
    By(SETUP, Call::Remove(1), MOVED_REMOVAL),
    By(SEAT, Call::Resolve, "Ok(Defunct(UnitId(0)))"),
];

#[test]
fn a_unit_that_is_held_is_removed_with_its_new_tracker(rt: HostRuntime) {
    let tables = &[PREPARED, MOVED, GOES_WITH_IT];
    plays::<64>(&rt, rt.alloc(), tables, "entries: 11");
}

/// What the failure is answered, with what it tells.
const FAILURE: &str =
    "Ok(Failed), 4 hears Some(Outcome { query: QueryId(0), end: Failed(8, InstId(0)) })";

const GIVEN_UP: Table = &[
    By(SEAT, Call::LookUp(0, Some(4)), WAITS),
    By(SEAT, Call::TakeAndPlace(0), "Ok(Placed(268435456))"),
    By(OTHER, Call::Fail, "Ok(WrongPhase(UnitId(0)))"),
    By(SEAT, Call::Fail, FAILURE),
    By(SEAT, Call::Collect(0), "Ok(Lost(8, InstId(0)))"),
    By(SEAT, Call::LookUp(0, None), "Ok(InError(InstId(0)))"),
];

#[test]
fn a_unit_is_given_up_by_its_holder(rt: HostRuntime) {
    plays::<64>(&rt, rt.alloc(), &[PREPARED, GIVEN_UP], "entries: 10");
}

const FULL: Table = &[
    By(SEAT, Call::Resolve, "Ok(Resolved)"),
    By(SEAT, Call::Link, "Err(JournalFull(7))"),
    By(SEAT, Call::Fail, "Ok(Failed)"),
    By(SEAT, Call::Collect(0), "Err(JournalFull(8))"),
];

#[test]
fn a_full_journal_has_a_place_for_the_failure(rt: HostRuntime) {
    plays::<8>(&rt, rt.alloc(), &[PLACED, FULL], "entries: 8");
}
