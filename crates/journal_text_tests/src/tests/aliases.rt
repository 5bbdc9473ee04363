//! Two aliases of each other.

use super::reading::check;
use super::{F, FIRST_ALL, I0, I1, MAIN, Row, Said, Told};
use orc_ids::{Level, UnitName, Wanted};
use session_model::Why;
use std::test::Fail;

const STRONG_F: Wanted = Wanted {
    name: F,
    weak: false,
};

const ALIASES: [Row; 13] = [
    (
        0,
        Said::Dylib(MAIN),
        Told::Made(0),
        "1 s0 dylib main = made d0",
    ),
    (
        0,
        Said::Tracker(0),
        Told::Tracker(0),
        "2 s0 tracker d0 = tracker t0",
    ),
    (
        0,
        Said::Define(0, 0, UnitName::Alias(0)),
        Told::Defined(0, 0, 1),
        "3 s0 define d0 t0 l0 = defined u0 i0 1",
    ),
    (
        0,
        Said::Define(0, 0, UnitName::Alias(1)),
        Told::Defined(1, 1, 1),
        "4 s0 define d0 t0 l1 = defined u1 i1 1",
    ),
    (
        1,
        Said::Ask(&[FIRST_ALL], &[STRONG_F], Level::Ready, None),
        Told::Pending(0),
        "5 s1 ask d0:all ready f = pending q0",
    ),
    (1, Said::Take, Told::Start(0), "6 s1 take = start u0"),
    (
        1,
        Said::Link(0),
        Told::Pending(1),
        "7 s1 link u0 = pending q1",
    ),
    (1, Said::Take, Told::Start(1), "8 s1 take = start u1"),
    (
        1,
        Said::Link(1),
        Told::AliasCycle(0),
        "9 s1 link u1 = aliascycle i0",
    ),
    (
        1,
        Said::Fail(1, Why::AliasCycle(I0)),
        Told::Failed,
        "10 s1 fail u1 aliascycle i0 = failed",
    ),
    (
        1,
        Said::Take,
        Told::FinishLost(0, 1),
        "11 s1 take = finish u0 lost i1",
    ),
    (
        1,
        Said::Fail(0, Why::InError(I1)),
        Told::Failed,
        "12 s1 fail u0 inerror i1 = failed",
    ),
    (
        1,
        Said::Collect(0),
        Told::Lost(12, 0),
        "13 s1 collect q0 = failed 12 i0",
    ),
];

#[test]
fn the_session_of_two_aliases(rt: HostRuntime) -> Result<(), Fail> {
    check(&rt, rt.alloc(), &ALIASES)
}
