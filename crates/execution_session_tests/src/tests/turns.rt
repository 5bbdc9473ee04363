//! Calls of a seat that doesn't hold the unit, and calls out of turn.

use super::calls::Call;
use super::play::Step::By;
use super::play::{Table, plays};
use super::{ASKED, OTHER, PLACED, SEAT};

/// The call is of a seat that doesn't hold the unit, or not of the unit's phase.
const WRONG: &str = "Ok(WrongPhase(UnitId(0)))";

const OTHER_PLACES: Table = &[By(OTHER, Call::TakeAndPlace(0), WRONG)];

#[test]
fn another_seat_does_not_place(rt: HostRuntime) {
    plays::<64>(&rt, rt.alloc(), &[ASKED, OTHER_PLACES], "entries: 6");
}

const OTHER_CALLS: Table = &[
    By(OTHER, Call::Resolve, WRONG),
    By(OTHER, Call::Link, WRONG),
    By(SEAT, Call::Resolve, "Ok(Resolved)"),
    By(OTHER, Call::Resolve, WRONG),
    By(OTHER, Call::Link, WRONG),
    By(SEAT, Call::Link, "Ok(Done(QueryId(1)))"),
    By(OTHER, Call::TakeAndEmit, WRONG),
];

#[test]
fn another_seat_does_not_hold_the_unit(rt: HostRuntime) {
    plays::<64>(&rt, rt.alloc(), &[PLACED, OTHER_CALLS], "entries: 14");
}

const OUT_OF_TURN: Table = &[
    By(SEAT, Call::Resolve, WRONG),
    By(SEAT, Call::TakeAndPlace(0), "Ok(Placed(268435456))"),
    By(SEAT, Call::Link, WRONG),
    By(SEAT, Call::Resolve, "Ok(Resolved)"),
    By(SEAT, Call::Resolve, WRONG),
    By(SEAT, Call::Link, "Ok(Done(QueryId(1)))"),
    By(SEAT, Call::Link, WRONG),
    By(SEAT, Call::TakeAndPlaceAgain, WRONG),
];

#[test]
fn calls_out_of_turn(rt: HostRuntime) {
    plays::<64>(&rt, rt.alloc(), &[ASKED, OUT_OF_TURN], "entries: 14");
}

const WAITS: Table = &[
    By(SEAT, Call::Resolve, "Ok(Resolved)"),
    By(SEAT, Call::Collect(0), "Ok(Open)"),
    By(SEAT, Call::Take, "Ok(Idle(1))"),
    By(OTHER, Call::Take, "Ok(Idle(1))"),
];

#[test]
fn a_unit_that_waits(rt: HostRuntime) {
    plays::<64>(&rt, rt.alloc(), &[PLACED, WAITS], "entries: 7");
}
