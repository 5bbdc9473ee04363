//! Each reply that can come so early in a session.

use super::calls::Call;
use super::play::Step::{By, HandsOut};
use super::play::{Table, plays};
use super::units::{FIRST, Named};
use super::{ASKED, PREPARED, SEAT, SETUP, WAITS};
use orc_ids::{DylibId, NameId, OrderItem, Scope};

const EARLY: Table = &[
    By(SEAT, Call::Take, "Ok(Idle(0))"),
    By(SEAT, Call::Tracker(4), "Ok(NoDylib(DylibId(4)))"),
    By(SEAT, Call::LookUp(0, None), "Ok(NoDylib(DylibId(0)))"),
    By(
        SETUP,
        Call::Define(0, 0, FIRST),
        "Ok(NoDylib(DylibId(0))), unit back",
    ),
    By(SEAT, Call::Resolve, "Ok(WrongPhase(UnitId(0)))"),
    By(SEAT, Call::Link, "Ok(WrongPhase(UnitId(0)))"),
    By(SEAT, Call::Collect(9), "Ok(Unknown(QueryId(9)))"),
];

#[test]
fn calls_before_there_is_anything(rt: HostRuntime) {
    plays::<64>(&rt, rt.alloc(), &[EARLY], "entries: 6");
}

/// The exported names of the second dylib.
const SECOND: OrderItem = OrderItem {
    dylib: DylibId(1),
    scope: Scope::Exported,
};

/// A strong definition of name 2.
const STRONG: Named = Named {
    name: NameId(2),
    weak: false,
    wants: None,
    more: 47,
};

/// Another dylib is made, with a tracker.
const ANOTHER: Table = &[
    By(SETUP, Call::Dylib(7), "Ok(NameTaken(DylibId(0)))"),
    By(SETUP, Call::Dylib(8), "Ok(Made(DylibId(1)))"),
    By(SETUP, Call::Tracker(1), "Ok(Tracker(TrackId(1)))"),
];

/// A move to a tracker of another dylib is refused, and one to itself is not; the first dylib links against
/// the second; a tracker is removed once.
const TRACKERS: Table = &[
    By(SETUP, Call::MoveTracker(0, 1), "Ok(OtherDylib)"),
    By(SETUP, Call::MoveTracker(0, 0), "Ok(Moved)"),
    By(SETUP, Call::SetOrder(0, &[SECOND]), "Ok(Set)"),
    By(SETUP, Call::Remove(1), "Ok(Removed)"),
    By(SETUP, Call::Remove(1), "Ok(TrackerGone(TrackId(1)))"),
    By(
        SETUP,
        Call::Define(0, 1, STRONG),
        "Ok(TrackerGone(TrackId(1))), unit back",
    ),
];

#[test]
fn dylibs_and_trackers(rt: HostRuntime) {
    let tables = &[PREPARED, ANOTHER, TRACKERS];
    plays::<64>(&rt, rt.alloc(), tables, "entries: 12");
}

const WAIT_OR_MISS: Table = &[
    By(
        SEAT,
        Call::LookUp(9, Some(1)),
        "Ok(Missing(NameId(9))), notifier back",
    ),
    By(SEAT, Call::LookUp(0, Some(2)), WAITS),
    By(SEAT, Call::Collect(0), "Ok(Open)"),
    HandsOut(2),
];

#[test]
fn lookups_that_wait_or_miss(rt: HostRuntime) {
    plays::<64>(&rt, rt.alloc(), &[PREPARED, WAIT_OR_MISS], "entries: 5");
}

const FULL: Table = &[
    By(SEAT, Call::Dylib(8), "Err(JournalFull(4))"),
    By(SEAT, Call::Take, "Err(JournalFull(4))"),
    By(SEAT, Call::Image, "Err(JournalFull(4))"),
    By(SETUP, Call::Remove(0), "Err(JournalFull(4))"),
    By(SEAT, Call::Collect(0), "Ok(Open)"),
    By(SEAT, Call::Collect(1), "Err(JournalFull(4))"),
    By(
        SEAT,
        Call::LookUp(0, Some(1)),
        "Err(JournalFull(4)), notifier back",
    ),
];

#[test]
fn a_full_journal_stops_the_calls(rt: HostRuntime) {
    plays::<4>(&rt, rt.alloc(), &[ASKED, FULL], "entries: 4");
}
