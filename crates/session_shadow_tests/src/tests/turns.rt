//! Calls out of turn, and calls on a unit that is gone.

use super::playing::check;
use super::said::{Said, Unit};
use super::{F, MAIN, Row, Says};
use session_model::Why;
use std::test::Fail;

const ANOTHER_SEAT_HOLDS_THE_UNIT: [Row; 11] = [
    (
        0,
        Said::Dylib(MAIN),
        Says::Entry("1 s0 dylib main = made d0"),
    ),
    (
        0,
        Said::Tracker(0),
        Says::Entry("2 s0 tracker d0 = tracker t0"),
    ),
    (
        0,
        Said::Define(0, 0, Unit::Object(F, None)),
        Says::Entry("3 s0 define d0 t0 o0 = defined u0 i0 1"),
    ),
    (
        1,
        Said::Ask(0, F),
        Says::Entry("4 s1 ask d0:all ready f = pending q0"),
    ),
    (1, Said::Take, Says::Entry("5 s1 take = start u0")),
    (
        2,
        Said::Place(0),
        Says::Entry("6 s2 place u0 48 16 = wrongphase u0"),
    ),
    (
        2,
        Said::Resolve(0),
        Says::Entry("7 s2 resolve u0 = wrongphase u0"),
    ),
    (
        2,
        Said::Link(0),
        Says::Entry("8 s2 link u0 = wrongphase u0"),
    ),
    (
        2,
        Said::Emit(0),
        Says::Entry("9 s2 emit u0 = wrongphase u0"),
    ),
    (
        2,
        Said::Fail(0, Why::NoMemory),
        Says::Entry("10 s2 fail u0 nomemory = wrongphase u0"),
    ),
    (2, Said::Take, Says::NoEntry("Ok(Idle(1))")),
];

#[test]
fn another_seat_holds_the_unit(rt: HostRuntime) -> Result<(), Fail> {
    check::<64>(&rt, rt.alloc(), &ANOTHER_SEAT_HOLDS_THE_UNIT)
}

const THE_UNIT_WAS_REMOVED: [Row; 15] = [
    (
        0,
        Said::Dylib(MAIN),
        Says::Entry("1 s0 dylib main = made d0"),
    ),
    (
        0,
        Said::Tracker(0),
        Says::Entry("2 s0 tracker d0 = tracker t0"),
    ),
    (
        0,
        Said::Define(0, 0, Unit::Object(F, None)),
        Says::Entry("3 s0 define d0 t0 o0 = defined u0 i0 1"),
    ),
    (
        1,
        Said::Ask(0, F),
        Says::Entry("4 s1 ask d0:all ready f = pending q0"),
    ),
    (1, Said::Take, Says::Entry("5 s1 take = start u0")),
    (0, Said::Remove(0), Says::Entry("6 s0 remove t0 = removed")),
    (
        2,
        Said::Place(0),
        Says::Entry("7 s2 place u0 48 16 = defunct u0"),
    ),
    (
        2,
        Said::Resolve(0),
        Says::Entry("8 s2 resolve u0 = defunct u0"),
    ),
    (2, Said::Link(0), Says::Entry("9 s2 link u0 = defunct u0")),
    (2, Said::Emit(0), Says::Entry("10 s2 emit u0 = defunct u0")),
    (
        2,
        Said::Fail(0, Why::NoMemory),
        Says::Entry("11 s2 fail u0 nomemory = defunct u0"),
    ),
    (2, Said::Take, Says::NoEntry("Ok(Idle(1))")),
    (
        1,
        Said::Fail(0, Why::NoMemory),
        Says::Entry("12 s1 fail u0 nomemory = defunct u0"),
    ),
    (2, Said::Take, Says::NoEntry("Ok(Idle(0))")),
    (
        1,
        Said::Collect(0),
        Says::Entry("13 s1 collect q0 = failed 6 i0"),
    ),
];

#[test]
fn the_unit_was_removed(rt: HostRuntime) -> Result<(), Fail> {
    check::<64>(&rt, rt.alloc(), &THE_UNIT_WAS_REMOVED)
}
