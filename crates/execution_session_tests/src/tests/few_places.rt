//! Journals of few places. A take wants two, one of them for its unit, which keeps it while it is held.

use super::calls::Call;
use super::play::Step::By;
use super::play::{Table, plays};
use super::units::FIRST;
use super::{ASKED, DEFINED, SEAT, SETUP, WAITS};

/// What the query's end is.
const FOUND: &str = "Ok(Found(10, Items { items: [Some((InstId(0), 268435456))] }))";

/// The twelve calls of a lookup.
const LOOKUP: Table = &[
    By(SETUP, Call::Dylib(7), "Ok(Made(DylibId(0)))"),
    By(SETUP, Call::Tracker(0), "Ok(Tracker(TrackId(0)))"),
    By(SETUP, Call::Define(0, 0, FIRST), DEFINED),
    By(SEAT, Call::LookUp(0, None), WAITS),
    By(SEAT, Call::TakeAndPlace(0), "Ok(Placed(268435456))"),
    By(SEAT, Call::Resolve, "Ok(Resolved)"),
    By(SEAT, Call::Link, "Ok(Done(QueryId(1)))"),
    By(SEAT, Call::TakeAndEmit, "Ok(Emitted)"),
    By(SEAT, Call::Collect(0), FOUND),
    By(SEAT, Call::Image, "Ok(Image) of the unit"),
];

/// In a journal of so many places the call after the last entry, and none before it, finds no place.
#[test]
fn each_call_wants_a_place(rt: HostRuntime) {
    let alloc = rt.alloc();
    let lookup = &[LOOKUP];
    plays::<0>(
        &rt,
        alloc,
        lookup,
        "entries: 0, step 0 of table 0: Err(JournalFull(0))",
    );
    plays::<1>(
        &rt,
        alloc,
        lookup,
        "entries: 1, step 1 of table 0: Err(JournalFull(1))",
    );
    plays::<2>(
        &rt,
        alloc,
        lookup,
        "entries: 2, step 2 of table 0: Err(JournalFull(2)), unit back",
    );
    plays::<3>(
        &rt,
        alloc,
        lookup,
        "entries: 3, step 3 of table 0: Err(JournalFull(3))",
    );
    plays::<4>(
        &rt,
        alloc,
        lookup,
        "entries: 4, step 4 of table 0: Err(JournalFull(4))",
    );
    plays::<5>(
        &rt,
        alloc,
        lookup,
        "entries: 4, step 4 of table 0: Err(JournalFull(4))",
    );
    plays::<6>(
        &rt,
        alloc,
        lookup,
        "entries: 5, step 4 of table 0: Err(JournalFull(5))",
    );
    plays::<7>(
        &rt,
        alloc,
        lookup,
        "entries: 6, step 5 of table 0: Err(JournalFull(6))",
    );
    plays::<8>(
        &rt,
        alloc,
        lookup,
        "entries: 7, step 6 of table 0: Err(JournalFull(7))",
    );
    plays::<9>(
        &rt,
        alloc,
        lookup,
        "entries: 8, step 7 of table 0: Err(JournalFull(8))",
    );
    plays::<10>(
        &rt,
        alloc,
        lookup,
        "entries: 9, step 7 of table 0: Err(JournalFull(9))",
    );
    plays::<11>(
        &rt,
        alloc,
        lookup,
        "entries: 11, step 9 of table 0: Err(JournalFull(11))",
    );
}

#[test]
fn twelve_places_are_enough(rt: HostRuntime) {
    plays::<12>(&rt, rt.alloc(), &[LOOKUP], "entries: 12");
}

const LAST_PLACE: Table = &[
    By(SEAT, Call::Take, "Err(JournalFull(4))"),
    By(SEAT, Call::Dylib(8), "Ok(Made(DylibId(1)))"),
    By(SEAT, Call::Dylib(9), "Err(JournalFull(5))"),
];

#[test]
fn the_last_place_is_for_no_job(rt: HostRuntime) {
    plays::<5>(&rt, rt.alloc(), &[ASKED, LAST_PLACE], "entries: 5");
}
