//! Two objects that call each other.

use super::reading::check;
use super::{CODE, FIRST_ALL, I0, I1, I2, MAIN, Row, STRONG_MAIN, Said, Told};
use orc_ids::{Level, UnitName};
use std::test::Fail;

const CYCLE: [Row; 19] = [
    (
        0,
        Said::Dylib(MAIN),
        Told::Made(0),
        "1 s0 dylib main = made d0",
    ),
    (
        0,
        Said::Tracker(0),
        Told::Tracker(0),
        "2 s0 tracker d0 = tracker t0",
    ),
    (
        0,
        Said::Define(0, 0, UnitName::Object(0)),
        Told::Defined(0, 0, 2),
        "3 s0 define d0 t0 o0 = defined u0 i0 2",
    ),
    (
        0,
        Said::Define(0, 0, UnitName::Object(1)),
        Told::Defined(1, 2, 1),
        "4 s0 define d0 t0 o1 = defined u1 i2 1",
    ),
    (
        1,
        Said::Ask(&[FIRST_ALL], &[STRONG_MAIN], Level::Ready, None),
        Told::Pending(0),
        "5 s1 ask d0:all ready main = pending q0",
    ),
    (1, Said::Take, Told::Start(0), "6 s1 take = start u0"),
    (
        1,
        Said::Place(0, 48, 16),
        Told::Placed(CODE),
        "7 s1 place u0 48 16 = placed 10000000",
    ),
    (
        1,
        Said::Resolve(0),
        Told::Resolved,
        "8 s1 resolve u0 = resolved",
    ),
    (
        1,
        Said::Link(0),
        Told::Pending(1),
        "9 s1 link u0 = pending q1",
    ),
    (1, Said::Take, Told::Start(1), "10 s1 take = start u1"),
    (
        1,
        Said::Place(1, 32, 16),
        Told::Placed(CODE + 48),
        "11 s1 place u1 32 16 = placed 10000030",
    ),
    (
        1,
        Said::Resolve(1),
        Told::Resolved,
        "12 s1 resolve u1 = resolved",
    ),
    (1, Said::Link(1), Told::Done(2), "13 s1 link u1 = done q2"),
    (
        1,
        Said::Take,
        Told::FinishBound(0, &[Some((I2, CODE + 48))]),
        "14 s1 take = finish u0 bound i2",
    ),
    (
        1,
        Said::Emit(0, &[(&[I0, I1], &[I2])]),
        Told::Emitted,
        "15 s1 emit u0 i0,i1:i2 = emitted",
    ),
    (
        1,
        Said::Take,
        Told::FinishBound(1, &[Some((I1, CODE + 8))]),
        "16 s1 take = finish u1 bound i1",
    ),
    (
        1,
        Said::Emit(1, &[(&[I2], &[I1])]),
        Told::Emitted,
        "17 s1 emit u1 i2:i1 = emitted",
    ),
    (
        1,
        Said::Collect(0),
        Told::Found(17, &[Some((I0, CODE))]),
        "18 s1 collect q0 = found 17 i0@10000000",
    ),
    (1, Said::Image, Told::Image, "19 s1 image = image"),
];

#[test]
fn the_session_of_a_cycle(rt: HostRuntime) -> Result<(), Fail> {
    check(&rt, rt.alloc(), &CYCLE)
}
