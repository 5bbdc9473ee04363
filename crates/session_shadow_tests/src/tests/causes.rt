//! Units that are given up, each for another cause, and links that wait for a generator.

use super::playing::check;
use super::said::{Said, Unit};
use super::{F, H, K, MAIN, Row, Says};
use orc_ids::{InstId, Place};
use session_model::Why;
use std::test::Fail;

const THERE_IS_NO_ROOM: [Row; 8] = [
    (
        0,
        Said::Dylib(MAIN),
        Says::Entry("1 s0 dylib main = made d0"),
    ),
    (
        0,
        Said::Tracker(0),
        Says::Entry("2 s0 tracker d0 = tracker t0"),
    ),
    (
        0,
        Said::Define(0, 0, Unit::Sized(MAIN, 0x400_0010)),
        Says::Entry("3 s0 define d0 t0 o0 = defined u0 i0 1"),
    ),
    (
        1,
        Said::Ask(0, MAIN),
        Says::Entry("4 s1 ask d0:all ready main = pending q0"),
    ),
    (1, Said::Take, Says::Entry("5 s1 take = start u0")),
    (
        1,
        Said::Place(0),
        Says::Entry("6 s1 place u0 67108880 16 = noroom 67108880"),
    ),
    (
        1,
        Said::Fail(0, Why::NoRoom(0x400_0010)),
        Says::Entry("7 s1 fail u0 noroom 67108880 = failed"),
    ),
    (
        1,
        Said::Collect(0),
        Says::Entry("8 s1 collect q0 = failed 7 i0"),
    ),
];

#[test]
fn there_is_no_room(rt: HostRuntime) -> Result<(), Fail> {
    check::<64>(&rt, rt.alloc(), &THERE_IS_NO_ROOM)
}

/// The place of an edge.
const EDGE: Place = Place {
    block: 0,
    offset: 4,
};

const AN_EDGE_IS_OUT_OF_RANGE: [Row; 11] = [
    (
        0,
        Said::Dylib(MAIN),
        Says::Entry("1 s0 dylib main = made d0"),
    ),
    (
        0,
        Said::Tracker(0),
        Says::Entry("2 s0 tracker d0 = tracker t0"),
    ),
    (
        0,
        Said::Define(0, 0, Unit::Refused(MAIN, EDGE, 17, 1_048_576)),
        Says::Entry("3 s0 define d0 t0 o0 = defined u0 i0 1"),
    ),
    (
        1,
        Said::Ask(0, MAIN),
        Says::Entry("4 s1 ask d0:all ready main = pending q0"),
    ),
    (1, Said::Take, Says::Entry("5 s1 take = start u0")),
    (
        1,
        Said::Place(0),
        Says::Entry("6 s1 place u0 48 16 = placed 10000000"),
    ),
    (
        1,
        Said::Resolve(0),
        Says::Entry("7 s1 resolve u0 = resolved"),
    ),
    (1, Said::Link(0), Says::Entry("8 s1 link u0 = done q1")),
    (1, Said::Take, Says::Entry("9 s1 take = finish u0 bound")),
    (
        1,
        Said::Fail(0, Why::Refused(EDGE, 17, 1_048_576)),
        Says::Entry("10 s1 fail u0 refused 0 4 17 1048576 = failed"),
    ),
    (
        1,
        Said::Collect(0),
        Says::Entry("11 s1 collect q0 = failed 10 i0"),
    ),
];

#[test]
fn an_edge_is_out_of_range(rt: HostRuntime) -> Result<(), Fail> {
    check::<64>(&rt, rt.alloc(), &AN_EDGE_IS_OUT_OF_RANGE)
}

const MEMORY_RUNS_OUT: [Row; 8] = [
    (
        0,
        Said::Dylib(MAIN),
        Says::Entry("1 s0 dylib main = made d0"),
    ),
    (
        0,
        Said::Tracker(0),
        Says::Entry("2 s0 tracker d0 = tracker t0"),
    ),
    (
        0,
        Said::Define(0, 0, Unit::Object(MAIN, None)),
        Says::Entry("3 s0 define d0 t0 o0 = defined u0 i0 1"),
    ),
    (
        1,
        Said::Ask(0, MAIN),
        Says::Entry("4 s1 ask d0:all ready main = pending q0"),
    ),
    (1, Said::Take, Says::Entry("5 s1 take = start u0")),
    (
        1,
        Said::Fail(0, Why::NoMemory),
        Says::Entry("6 s1 fail u0 nomemory = failed"),
    ),
    (
        1,
        Said::Fail(0, Why::NoMemory),
        Says::Entry("7 s1 fail u0 nomemory = wrongphase u0"),
    ),
    (
        1,
        Said::Ask(0, MAIN),
        Says::Entry("8 s1 ask d0:all ready main = inerror i0"),
    ),
];

#[test]
fn memory_runs_out(rt: HostRuntime) -> Result<(), Fail> {
    check::<64>(&rt, rt.alloc(), &MEMORY_RUNS_OUT)
}

const WHAT_A_UNIT_WAITS_FOR_FAILS: [Row; 20] = [
    (
        0,
        Said::Dylib(MAIN),
        Says::Entry("1 s0 dylib main = made d0"),
    ),
    (
        0,
        Said::Tracker(0),
        Says::Entry("2 s0 tracker d0 = tracker t0"),
    ),
    (
        0,
        Said::Define(0, 0, Unit::Object(MAIN, Some(F))),
        Says::Entry("3 s0 define d0 t0 o0 = defined u0 i0 1"),
    ),
    (
        1,
        Said::Ask(0, MAIN),
        Says::Entry("4 s1 ask d0:all ready main = pending q0"),
    ),
    (1, Said::Take, Says::Entry("5 s1 take = start u0")),
    (
        0,
        Said::Define(0, 0, Unit::Object(F, None)),
        Says::Entry("6 s0 define d0 t0 o0 = defined u1 i1 1"),
    ),
    (
        0,
        Said::Define(0, 0, Unit::Object(K, Some(F))),
        Says::Entry("7 s0 define d0 t0 o0 = defined u2 i2 1"),
    ),
    (
        1,
        Said::Place(0),
        Says::Entry("8 s1 place u0 48 16 = placed 10000000"),
    ),
    (
        1,
        Said::Resolve(0),
        Says::Entry("9 s1 resolve u0 = resolved"),
    ),
    (1, Said::Link(0), Says::Entry("10 s1 link u0 = pending q1")),
    (2, Said::Take, Says::Entry("11 s2 take = start u1")),
    (
        2,
        Said::Fail(1, Why::NoMemory),
        Says::Entry("12 s2 fail u1 nomemory = failed"),
    ),
    (1, Said::Take, Says::Entry("13 s1 take = finish u0 lost i1")),
    (
        1,
        Said::Fail(0, Why::InError(InstId(1))),
        Says::Entry("14 s1 fail u0 inerror i1 = failed"),
    ),
    (
        2,
        Said::Ask(0, K),
        Says::Entry("15 s2 ask d0:all ready k = pending q2"),
    ),
    (2, Said::Take, Says::Entry("16 s2 take = start u2")),
    (
        2,
        Said::Place(2),
        Says::Entry("17 s2 place u2 48 16 = placed 10000000"),
    ),
    (
        2,
        Said::Resolve(2),
        Says::Entry("18 s2 resolve u2 = resolved"),
    ),
    (2, Said::Link(2), Says::Entry("19 s2 link u2 = inerror i1")),
    (
        2,
        Said::Fail(2, Why::InError(InstId(1))),
        Says::Entry("20 s2 fail u2 inerror i1 = failed"),
    ),
];

#[test]
fn what_a_unit_waits_for_fails(rt: HostRuntime) -> Result<(), Fail> {
    check::<64>(&rt, rt.alloc(), &WHAT_A_UNIT_WAITS_FOR_FAILS)
}

const A_LINK_MATCHES_A_GENERATOR: [Row; 15] = [
    (
        0,
        Said::Dylib(MAIN),
        Says::Entry("1 s0 dylib main = made d0"),
    ),
    (
        0,
        Said::Tracker(0),
        Says::Entry("2 s0 tracker d0 = tracker t0"),
    ),
    (
        0,
        Said::Define(0, 0, Unit::Object(MAIN, Some(F))),
        Says::Entry("3 s0 define d0 t0 o0 = defined u0 i0 1"),
    ),
    (
        1,
        Said::Ask(0, MAIN),
        Says::Entry("4 s1 ask d0:all ready main = pending q0"),
    ),
    (1, Said::Take, Says::Entry("5 s1 take = start u0")),
    (
        0,
        Said::Attach(0, 0, Unit::Object(F, None)),
        Says::Entry("6 s0 attach d0 t0 o0 = generator g0"),
    ),
    (
        1,
        Said::Place(0),
        Says::Entry("7 s1 place u0 48 16 = placed 10000000"),
    ),
    (
        1,
        Said::Resolve(0),
        Says::Entry("8 s1 resolve u0 = resolved"),
    ),
    (1, Said::Link(0), Says::Entry("9 s1 link u0 = offer g0")),
    (
        1,
        Said::Generate(0),
        Says::Entry("10 s1 generate g0 = defined u1 i1 1"),
    ),
    (1, Said::Link(0), Says::Entry("11 s1 link u0 = pending q1")),
    (1, Said::Take, Says::Entry("12 s1 take = start u1")),
    (
        1,
        Said::Place(1),
        Says::Entry("13 s1 place u1 48 16 = placed 10000030"),
    ),
    (
        1,
        Said::Resolve(1),
        Says::Entry("14 s1 resolve u1 = resolved"),
    ),
    (
        1,
        Said::Take,
        Says::Entry("15 s1 take = finish u0 bound i1"),
    ),
];

#[test]
fn a_link_matches_a_generator(rt: HostRuntime) -> Result<(), Fail> {
    check::<64>(&rt, rt.alloc(), &A_LINK_MATCHES_A_GENERATOR)
}

const TWO_ALIASES_OF_EACH_OTHER: [Row; 13] = [
    (
        0,
        Said::Dylib(MAIN),
        Says::Entry("1 s0 dylib main = made d0"),
    ),
    (
        0,
        Said::Tracker(0),
        Says::Entry("2 s0 tracker d0 = tracker t0"),
    ),
    (
        0,
        Said::Define(0, 0, Unit::Alias(0, F, H)),
        Says::Entry("3 s0 define d0 t0 l0 = defined u0 i0 1"),
    ),
    (
        0,
        Said::Define(0, 0, Unit::Alias(1, H, F)),
        Says::Entry("4 s0 define d0 t0 l1 = defined u1 i1 1"),
    ),
    (
        1,
        Said::Ask(0, F),
        Says::Entry("5 s1 ask d0:all ready f = pending q0"),
    ),
    (1, Said::Take, Says::Entry("6 s1 take = start u0")),
    (1, Said::Link(0), Says::Entry("7 s1 link u0 = pending q1")),
    (1, Said::Take, Says::Entry("8 s1 take = start u1")),
    (
        1,
        Said::Link(1),
        Says::Entry("9 s1 link u1 = aliascycle i0"),
    ),
    (
        1,
        Said::Fail(1, Why::AliasCycle(InstId(0))),
        Says::Entry("10 s1 fail u1 aliascycle i0 = failed"),
    ),
    (1, Said::Take, Says::Entry("11 s1 take = finish u0 lost i1")),
    (
        1,
        Said::Fail(0, Why::InError(InstId(1))),
        Says::Entry("12 s1 fail u0 inerror i1 = failed"),
    ),
    (
        1,
        Said::Collect(0),
        Says::Entry("13 s1 collect q0 = failed 12 i0"),
    ),
];

#[test]
fn two_aliases_of_each_other(rt: HostRuntime) -> Result<(), Fail> {
    check::<64>(&rt, rt.alloc(), &TWO_ALIASES_OF_EACH_OTHER)
}
