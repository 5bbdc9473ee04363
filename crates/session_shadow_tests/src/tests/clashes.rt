//! Calls that name what isn't there or is there already, before any unit is taken.

use super::playing::check;
use super::said::{Said, Unit};
use super::{F, MAIN, NOSUCH, Row, Says};
use std::test::Fail;

const DYLIBS_AND_TRACKERS_THAT_ARE_NOT_THERE: [Row; 13] = [
    (
        0,
        Said::Dylib(MAIN),
        Says::Entry("1 s0 dylib main = made d0"),
    ),
    (
        0,
        Said::Tracker(0),
        Says::Entry("2 s0 tracker d0 = tracker t0"),
    ),
    (
        0,
        Said::Dylib(MAIN),
        Says::Entry("3 s0 dylib main = taken d0"),
    ),
    (
        0,
        Said::Tracker(4),
        Says::Entry("4 s0 tracker d4 = nodylib d4"),
    ),
    (
        0,
        Said::Order(3, 0),
        Says::Entry("5 s0 order d3 d0:exported = nodylib d3"),
    ),
    (
        0,
        Said::Order(0, 3),
        Says::Entry("6 s0 order d0 d3:exported = nodylib d3"),
    ),
    (
        0,
        Said::Order(0, 0),
        Says::Entry("7 s0 order d0 d0:exported = set"),
    ),
    (
        0,
        Said::Attach(3, 0, Unit::Object(F, None)),
        Says::Entry("8 s0 attach d3 t0 o0 = nodylib d3"),
    ),
    (
        0,
        Said::Attach(0, 7, Unit::Object(F, None)),
        Says::Entry("9 s0 attach d0 t7 o0 = gone t7"),
    ),
    (
        0,
        Said::Define(3, 0, Unit::Object(F, None)),
        Says::Entry("10 s0 define d3 t0 o0 = nodylib d3"),
    ),
    (
        0,
        Said::Define(0, 7, Unit::Object(F, None)),
        Says::Entry("11 s0 define d0 t7 o0 = gone t7"),
    ),
    (
        1,
        Said::Ask(3, F),
        Says::Entry("12 s1 ask d3:all ready f = nodylib d3"),
    ),
    (
        1,
        Said::Ask(0, NOSUCH),
        Says::Entry("13 s1 ask d0:all ready nosuch = missing nosuch"),
    ),
];

#[test]
fn dylibs_and_trackers_that_are_not_there(rt: HostRuntime) -> Result<(), Fail> {
    check::<64>(&rt, rt.alloc(), &DYLIBS_AND_TRACKERS_THAT_ARE_NOT_THERE)
}

const NAMES_THAT_ARE_THERE_AND_TRACKERS_THAT_MOVE: [Row; 11] = [
    (
        0,
        Said::Dylib(MAIN),
        Says::Entry("1 s0 dylib main = made d0"),
    ),
    (
        0,
        Said::Tracker(0),
        Says::Entry("2 s0 tracker d0 = tracker t0"),
    ),
    (
        0,
        Said::Attach(0, 0, Unit::Object(F, None)),
        Says::Entry("3 s0 attach d0 t0 o0 = generator g0"),
    ),
    (
        0,
        Said::Define(0, 0, Unit::Object(F, None)),
        Says::Entry("4 s0 define d0 t0 o0 = defined u0 i0 1"),
    ),
    (
        1,
        Said::Generate(0),
        Says::Entry("5 s1 generate g0 = duplicate f i0"),
    ),
    (
        1,
        Said::Generate(0),
        Says::Entry("6 s1 generate g0 = spent g0"),
    ),
    (
        0,
        Said::Define(0, 0, Unit::Object(F, None)),
        Says::Entry("7 s0 define d0 t0 o0 = duplicate f i0"),
    ),
    (
        0,
        Said::Tracker(0),
        Says::Entry("8 s0 tracker d0 = tracker t1"),
    ),
    (0, Said::Move(0, 1), Says::Entry("9 s0 move t0 t1 = moved")),
    (
        0,
        Said::Move(0, 1),
        Says::Entry("10 s0 move t0 t1 = gone t0"),
    ),
    (
        0,
        Said::Move(1, 0),
        Says::Entry("11 s0 move t1 t0 = gone t0"),
    ),
];

#[test]
fn names_that_are_there_and_trackers_that_move(rt: HostRuntime) -> Result<(), Fail> {
    check::<64>(
        &rt,
        rt.alloc(),
        &NAMES_THAT_ARE_THERE_AND_TRACKERS_THAT_MOVE,
    )
}
