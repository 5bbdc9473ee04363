//! Whole sessions.

use super::playing::check;
use super::said::{Said, Unit};
use super::{F, H, K, MAIN, NOSUCH, Row, Says};
use orc_ids::InstId;
use session_model::Why;
use std::test::Fail;

const A_REMOVAL_IN_THE_MIDDLE: [Row; 14] = [
    (
        0,
        Said::Dylib(MAIN),
        Says::Entry("1 s0 dylib main = made d0"),
    ),
    (
        0,
        Said::Tracker(0),
        Says::Entry("2 s0 tracker d0 = tracker t0"),
    ),
    (
        0,
        Said::Define(0, 0, Unit::Object(MAIN, None)),
        Says::Entry("3 s0 define d0 t0 o0 = defined u0 i0 1"),
    ),
    (
        1,
        Said::Ask(0, MAIN),
        Says::Entry("4 s1 ask d0:all ready main = pending q0"),
    ),
    (1, Said::Take, Says::Entry("5 s1 take = start u0")),
    (
        1,
        Said::Place(0),
        Says::Entry("6 s1 place u0 48 16 = placed 10000000"),
    ),
    (0, Said::Remove(0), Says::Entry("7 s0 remove t0 = removed")),
    (
        1,
        Said::Resolve(0),
        Says::Entry("8 s1 resolve u0 = defunct u0"),
    ),
    (
        1,
        Said::Collect(0),
        Says::Entry("9 s1 collect q0 = failed 7 i0"),
    ),
    (
        0,
        Said::Tracker(0),
        Says::Entry("10 s0 tracker d0 = tracker t1"),
    ),
    (
        0,
        Said::Define(0, 1, Unit::Object(MAIN, None)),
        Says::Entry("11 s0 define d0 t1 o0 = defined u1 i1 1"),
    ),
    (
        1,
        Said::Ask(0, MAIN),
        Says::Entry("12 s1 ask d0:all ready main = pending q1"),
    ),
    (1, Said::Take, Says::Entry("13 s1 take = start u1")),
    (
        1,
        Said::Place(1),
        Says::Entry("14 s1 place u1 48 16 = placed 10000000"),
    ),
];

#[test]
fn a_removal_in_the_middle(rt: HostRuntime) -> Result<(), Fail> {
    check::<64>(&rt, rt.alloc(), &A_REMOVAL_IN_THE_MIDDLE)
}

const TWO_SEATS_AND_ONE_GENERATOR: [Row; 18] = [
    (
        0,
        Said::Dylib(MAIN),
        Says::Entry("1 s0 dylib main = made d0"),
    ),
    (
        0,
        Said::Tracker(0),
        Says::Entry("2 s0 tracker d0 = tracker t0"),
    ),
    (
        0,
        Said::Attach(0, 0, Unit::Object(MAIN, None)),
        Says::Entry("3 s0 attach d0 t0 o0 = generator g0"),
    ),
    (
        1,
        Said::Ask(0, MAIN),
        Says::Entry("4 s1 ask d0:all ready main = offer g0"),
    ),
    (
        2,
        Said::Ask(0, MAIN),
        Says::Entry("5 s2 ask d0:all ready main = offer g0"),
    ),
    (
        1,
        Said::Generate(0),
        Says::Entry("6 s1 generate g0 = defined u0 i0 1"),
    ),
    (
        2,
        Said::Generate(0),
        Says::Entry("7 s2 generate g0 = spent g0"),
    ),
    (
        1,
        Said::Ask(0, MAIN),
        Says::Entry("8 s1 ask d0:all ready main = pending q0"),
    ),
    (
        2,
        Said::Ask(0, MAIN),
        Says::Entry("9 s2 ask d0:all ready main = pending q1"),
    ),
    (2, Said::Collect(1), Says::NoEntry("Ok(Open)")),
    (1, Said::Take, Says::Entry("10 s1 take = start u0")),
    (
        1,
        Said::Place(0),
        Says::Entry("11 s1 place u0 48 16 = placed 10000000"),
    ),
    (
        1,
        Said::Resolve(0),
        Says::Entry("12 s1 resolve u0 = resolved"),
    ),
    (1, Said::Link(0), Says::Entry("13 s1 link u0 = done q2")),
    (1, Said::Take, Says::Entry("14 s1 take = finish u0 bound")),
    (1, Said::Emit(0), Says::Entry("15 s1 emit u0 i0: = emitted")),
    (
        1,
        Said::Collect(0),
        Says::Entry("16 s1 collect q0 = found 15 i0@10000000"),
    ),
    (
        2,
        Said::Collect(1),
        Says::Entry("17 s2 collect q1 = found 15 i0@10000000"),
    ),
];

#[test]
fn two_seats_and_one_generator(rt: HostRuntime) -> Result<(), Fail> {
    check::<64>(&rt, rt.alloc(), &TWO_SEATS_AND_ONE_GENERATOR)
}

const A_JOURNAL_OF_EIGHT_PLACES: [Row; 10] = [
    (
        0,
        Said::Dylib(MAIN),
        Says::Entry("1 s0 dylib main = made d0"),
    ),
    (
        0,
        Said::Tracker(0),
        Says::Entry("2 s0 tracker d0 = tracker t0"),
    ),
    (
        0,
        Said::Define(0, 0, Unit::Object(MAIN, None)),
        Says::Entry("3 s0 define d0 t0 o0 = defined u0 i0 1"),
    ),
    (
        1,
        Said::Ask(0, MAIN),
        Says::Entry("4 s1 ask d0:all ready main = pending q0"),
    ),
    (1, Said::Take, Says::Entry("5 s1 take = start u0")),
    (
        1,
        Said::Place(0),
        Says::Entry("6 s1 place u0 48 16 = placed 10000000"),
    ),
    (
        1,
        Said::Resolve(0),
        Says::Entry("7 s1 resolve u0 = resolved"),
    ),
    (1, Said::Link(0), Says::NoEntry("Err(JournalFull(7))")),
    (
        1,
        Said::Fail(0, Why::Full),
        Says::Entry("8 s1 fail u0 full = failed"),
    ),
    (1, Said::Collect(0), Says::NoEntry("Err(JournalFull(8))")),
];

#[test]
fn a_journal_of_eight_places(rt: HostRuntime) -> Result<(), Fail> {
    check::<8>(&rt, rt.alloc(), &A_JOURNAL_OF_EIGHT_PLACES)
}

const THINGS_THAT_ARE_NOT_THERE: [Row; 15] = [
    (
        0,
        Said::Dylib(MAIN),
        Says::Entry("1 s0 dylib main = made d0"),
    ),
    (
        0,
        Said::Tracker(0),
        Says::Entry("2 s0 tracker d0 = tracker t0"),
    ),
    (0, Said::Dylib(F), Says::Entry("3 s0 dylib f = made d1")),
    (
        0,
        Said::Tracker(1),
        Says::Entry("4 s0 tracker d1 = tracker t1"),
    ),
    (
        1,
        Said::Collect(9),
        Says::Entry("5 s1 collect q9 = unknown q9"),
    ),
    (
        1,
        Said::Generate(5),
        Says::Entry("6 s1 generate g5 = nogen g5"),
    ),
    (1, Said::Take, Says::NoEntry("Ok(Idle(0))")),
    (
        0,
        Said::Define(0, 0, Unit::Object(MAIN, None)),
        Says::Entry("7 s0 define d0 t0 o0 = defined u0 i0 1"),
    ),
    (
        1,
        Said::Ask(0, MAIN),
        Says::Entry("8 s1 ask d0:all ready main = pending q0"),
    ),
    (
        1,
        Said::Place(0),
        Says::Entry("9 s1 place u0 48 16 = wrongphase u0"),
    ),
    (
        0,
        Said::Move(0, 1),
        Says::Entry("10 s0 move t0 t1 = otherdylib"),
    ),
    (0, Said::Remove(0), Says::Entry("11 s0 remove t0 = removed")),
    (0, Said::Remove(0), Says::Entry("12 s0 remove t0 = gone t0")),
    (1, Said::Take, Says::NoEntry("Ok(Idle(0))")),
    (1, Said::Image, Says::Entry("13 s1 image = image")),
];

#[test]
fn things_that_are_not_there(rt: HostRuntime) -> Result<(), Fail> {
    check::<64>(&rt, rt.alloc(), &THINGS_THAT_ARE_NOT_THERE)
}

/// `main` needs `f`, that needs `h`, and that a name that is nowhere; `k` needs none.
const A_FAILURE_IN_PART: [Row; 35] = [
    (
        0,
        Said::Dylib(MAIN),
        Says::Entry("1 s0 dylib main = made d0"),
    ),
    (
        0,
        Said::Tracker(0),
        Says::Entry("2 s0 tracker d0 = tracker t0"),
    ),
    (
        0,
        Said::Define(0, 0, Unit::Object(MAIN, Some(F))),
        Says::Entry("3 s0 define d0 t0 o0 = defined u0 i0 1"),
    ),
    (
        0,
        Said::Define(0, 0, Unit::Object(F, Some(H))),
        Says::Entry("4 s0 define d0 t0 o0 = defined u1 i1 1"),
    ),
    (
        0,
        Said::Define(0, 0, Unit::Object(H, Some(NOSUCH))),
        Says::Entry("5 s0 define d0 t0 o0 = defined u2 i2 1"),
    ),
    (
        0,
        Said::Define(0, 0, Unit::Object(K, None)),
        Says::Entry("6 s0 define d0 t0 o0 = defined u3 i3 1"),
    ),
    (
        1,
        Said::Ask(0, MAIN),
        Says::Entry("7 s1 ask d0:all ready main = pending q0"),
    ),
    (1, Said::Take, Says::Entry("8 s1 take = start u0")),
    (
        1,
        Said::Place(0),
        Says::Entry("9 s1 place u0 48 16 = placed 10000000"),
    ),
    (
        1,
        Said::Resolve(0),
        Says::Entry("10 s1 resolve u0 = resolved"),
    ),
    (1, Said::Link(0), Says::Entry("11 s1 link u0 = pending q1")),
    (1, Said::Take, Says::Entry("12 s1 take = start u1")),
    (
        1,
        Said::Place(1),
        Says::Entry("13 s1 place u1 48 16 = placed 10000030"),
    ),
    (
        1,
        Said::Resolve(1),
        Says::Entry("14 s1 resolve u1 = resolved"),
    ),
    (1, Said::Link(1), Says::Entry("15 s1 link u1 = pending q2")),
    (
        1,
        Said::Take,
        Says::Entry("16 s1 take = finish u0 bound i1"),
    ),
    (
        1,
        Said::Emit(0),
        Says::Entry("17 s1 emit u0 i0:i1 = emitted"),
    ),
    (1, Said::Take, Says::Entry("18 s1 take = start u2")),
    (
        1,
        Said::Place(2),
        Says::Entry("19 s1 place u2 48 16 = placed 10000060"),
    ),
    (
        1,
        Said::Resolve(2),
        Says::Entry("20 s1 resolve u2 = resolved"),
    ),
    (
        1,
        Said::Link(2),
        Says::Entry("21 s1 link u2 = missing nosuch"),
    ),
    (
        1,
        Said::Fail(2, Why::Missing(NOSUCH)),
        Says::Entry("22 s1 fail u2 missing nosuch = failed"),
    ),
    (
        1,
        Said::Take,
        Says::Entry("23 s1 take = finish u1 bound i2"),
    ),
    (
        1,
        Said::Emit(1),
        Says::Entry("24 s1 emit u1 i1:i2 = baddep i2"),
    ),
    (
        1,
        Said::Fail(1, Why::BadDep(InstId(2))),
        Says::Entry("25 s1 fail u1 baddep i2 = failed"),
    ),
    (
        1,
        Said::Collect(0),
        Says::Entry("26 s1 collect q0 = failed 25 i0"),
    ),
    (
        1,
        Said::Ask(0, K),
        Says::Entry("27 s1 ask d0:all ready k = pending q3"),
    ),
    (1, Said::Take, Says::Entry("28 s1 take = start u3")),
    (
        1,
        Said::Place(3),
        Says::Entry("29 s1 place u3 48 16 = placed 10000030"),
    ),
    (
        1,
        Said::Resolve(3),
        Says::Entry("30 s1 resolve u3 = resolved"),
    ),
    (1, Said::Link(3), Says::Entry("31 s1 link u3 = done q4")),
    (1, Said::Take, Says::Entry("32 s1 take = finish u3 bound")),
    (1, Said::Emit(3), Says::Entry("33 s1 emit u3 i3: = emitted")),
    (
        1,
        Said::Collect(3),
        Says::Entry("34 s1 collect q3 = found 33 i3@10000030"),
    ),
    (
        1,
        Said::Ask(0, F),
        Says::Entry("35 s1 ask d0:all ready f = inerror i1"),
    ),
];

#[test]
fn a_failure_in_part(rt: HostRuntime) -> Result<(), Fail> {
    check::<64>(&rt, rt.alloc(), &A_FAILURE_IN_PART)
}
