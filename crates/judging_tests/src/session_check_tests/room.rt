//! Places in code memory.

use super::judging::check;
use super::{ALL, ALONE, BESIDE, CODE, F, Lie, Line, MAIN, Said, TOO_LARGE, Told};
use orc_ids::Scope;
use session_model::Why;
use std::test::Fail;

/// One unit lies at the end of code memory, and another one just fits before it.
const GAP: [Line; 10] = [
    (0, Said::Dylib(MAIN), Told::Made(0)),
    (0, Said::Tracker(0), Told::Tracker(0)),
    (0, Said::Define(0, ALONE), Told::Defined(0, 0, 1)),
    (0, Said::Define(0, BESIDE), Told::Defined(1, 1, 1)),
    (1, Said::Ask(Scope::All, MAIN), Told::Pending(0)),
    (1, Said::Ask(Scope::All, F), Told::Pending(1)),
    (1, Said::Take, Told::Start(0)),
    (1, Said::Place(0, 48), Told::Placed(CODE + (ALL - 48))),
    (1, Said::Take, Told::Start(1)),
    (1, Said::Place(1, ALL - 48), Told::Placed(CODE)),
];

const GAP_LIES: [Lie; 5] = [
    (7, (1, Said::Place(0, 48), Told::Placed(CODE + (ALL - 32)))),
    (7, (1, Said::Place(0, 48), Told::Placed(CODE - 48))),
    (9, (1, Said::Place(1, ALL - 48), Told::NoRoom(ALL - 48))),
    (9, (1, Said::Place(1, ALL - 48), Told::Placed(CODE + 16))),
    (9, (1, Said::Place(1, ALL - 64), Told::Placed(CODE))),
];

#[test]
fn room_before_another_unit(rt: HostRuntime) -> Result<(), Fail> {
    check(&rt, rt.alloc(), &GAP, &GAP_LIES)
}

/// There is no room behind a unit that lies in the middle, and none before it.
const NO_GAP: [Line; 11] = [
    (0, Said::Dylib(MAIN), Told::Made(0)),
    (0, Said::Tracker(0), Told::Tracker(0)),
    (0, Said::Define(0, ALONE), Told::Defined(0, 0, 1)),
    (0, Said::Define(0, BESIDE), Told::Defined(1, 1, 1)),
    (1, Said::Ask(Scope::All, MAIN), Told::Pending(0)),
    (1, Said::Ask(Scope::All, F), Told::Pending(1)),
    (1, Said::Take, Told::Start(0)),
    (1, Said::Place(0, 48), Told::Placed(CODE + 16)),
    (1, Said::Take, Told::Start(1)),
    (1, Said::Place(1, ALL - 48), Told::NoRoom(ALL - 48)),
    (1, Said::Fail(1, Why::NoRoom(ALL - 48)), Told::Failed),
];

const NO_GAP_LIES: [Lie; 3] = [
    (9, (1, Said::Place(1, ALL - 48), Told::Placed(CODE))),
    (9, (1, Said::Place(1, ALL - 48), Told::NoRoom(48))),
    (10, (1, Said::Fail(1, Why::NoRoom(48)), Told::Failed)),
];

#[test]
fn no_room_on_either_side(rt: HostRuntime) -> Result<(), Fail> {
    check(&rt, rt.alloc(), &NO_GAP, &NO_GAP_LIES)
}

/// A unit is larger than code memory.
const NO_ROOM: [Line; 8] = [
    (0, Said::Dylib(MAIN), Told::Made(0)),
    (0, Said::Tracker(0), Told::Tracker(0)),
    (0, Said::Define(0, TOO_LARGE), Told::Defined(0, 0, 1)),
    (1, Said::Ask(Scope::All, MAIN), Told::Pending(0)),
    (1, Said::Take, Told::Start(0)),
    (1, Said::Place(0, ALL + 16), Told::NoRoom(ALL + 16)),
    (1, Said::Fail(0, Why::NoRoom(ALL + 16)), Told::Failed),
    (1, Said::Collect(0), Told::Lost(7, 0)),
];

const NO_ROOM_LIES: [Lie; 2] = [
    (5, (1, Said::Place(0, ALL + 16), Told::Placed(CODE))),
    (6, (1, Said::Fail(0, Why::NoRoom(ALL)), Told::Failed)),
];

#[test]
fn no_room_at_all(rt: HostRuntime) -> Result<(), Fail> {
    check(&rt, rt.alloc(), &NO_ROOM, &NO_ROOM_LIES)
}
