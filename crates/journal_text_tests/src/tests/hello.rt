//! One object that is looked up and run.

use super::reading::check;
use super::{CODE, FIRST_ALL, I0, MAIN, Row, STRONG_MAIN, Said, Told};
use orc_ids::{Level, UnitName};
use std::test::Fail;

const HELLO: [Row; 12] = [
    (
        0,
        Said::Dylib(MAIN),
        Told::Made(0),
        "1 s0 dylib main = made d0",
    ),
    (
        0,
        Said::Tracker(0),
        Told::Tracker(0),
        "2 s0 tracker d0 = tracker t0",
    ),
    (
        0,
        Said::Define(0, 0, UnitName::Object(0)),
        Told::Defined(0, 0, 1),
        "3 s0 define d0 t0 o0 = defined u0 i0 1",
    ),
    (
        1,
        Said::Ask(&[FIRST_ALL], &[STRONG_MAIN], Level::Ready, None),
        Told::Pending(0),
        "4 s1 ask d0:all ready main = pending q0",
    ),
    (1, Said::Take, Told::Start(0), "5 s1 take = start u0"),
    (
        1,
        Said::Place(0, 48, 16),
        Told::Placed(CODE),
        "6 s1 place u0 48 16 = placed 10000000",
    ),
    (
        1,
        Said::Resolve(0),
        Told::Resolved,
        "7 s1 resolve u0 = resolved",
    ),
    (1, Said::Link(0), Told::Done(1), "8 s1 link u0 = done q1"),
    (
        1,
        Said::Take,
        Told::FinishBound(0, &[]),
        "9 s1 take = finish u0 bound",
    ),
    (
        1,
        Said::Emit(0, &[(&[I0], &[])]),
        Told::Emitted,
        "10 s1 emit u0 i0: = emitted",
    ),
    (
        1,
        Said::Collect(0),
        Told::Found(10, &[Some((I0, CODE))]),
        "11 s1 collect q0 = found 10 i0@10000000",
    ),
    (1, Said::Image, Told::Image, "12 s1 image = image"),
];

#[test]
fn the_session_of_one_object(rt: HostRuntime) -> Result<(), Fail> {
    check(&rt, rt.alloc(), &HELLO)
}

#[test]
fn no_entries_have_no_text(rt: HostRuntime) -> Result<(), Fail> {
    check(&rt, rt.alloc(), &[])
}
