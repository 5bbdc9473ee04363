//! Units that are brought into memory, alone and for each other.

use super::judging::check;
use super::{
    ALONE, ASIDE, BACK, CODE, F, K, Lie, Line, MAIN, NEEDS_F, NEEDS_H, NEEDS_NONE, NOSUCH, ROUND,
    Said, Told,
};
use orc_ids::{InstId, NameId, Scope};
use session_model::Why;
use std::test::Fail;

/// A unit is defined, looked up, brought into memory, and found ready.
pub(super) const HELLO: [Line; 12] = [
    (0, Said::Dylib(MAIN), Told::Made(0)),
    (0, Said::Tracker(0), Told::Tracker(0)),
    (0, Said::Define(0, ALONE), Told::Defined(0, 0, 1)),
    (1, Said::Ask(Scope::All, MAIN), Told::Pending(0)),
    (1, Said::Take, Told::Start(0)),
    (1, Said::Place(0, 48), Told::Placed(CODE)),
    (1, Said::Resolve(0), Told::Resolved),
    (1, Said::Link(0), Told::Done(1)),
    (1, Said::Take, Told::Finish(0, None)),
    (1, Said::Emit(0, 0, 0, None), Told::Emitted),
    (1, Said::Collect(0), Told::Found(10, 0, CODE)),
    (1, Said::Image, Told::Image),
];

const HELLO_LIES: [Lie; 10] = [
    (2, (0, Said::Define(0, ALONE), Told::Defined(0, 1, 1))),
    (3, (1, Said::Ask(Scope::All, MAIN), Told::Done(0))),
    (5, (1, Said::Place(0, 48), Told::Placed(CODE + 8))),
    (5, (1, Said::Place(0, 32), Told::Placed(CODE))),
    (7, (1, Said::Link(0), Told::Pending(1))),
    (9, (1, Said::Emit(0, 0, 0, Some(0)), Told::Emitted)),
    (9, (2, Said::Emit(0, 0, 0, None), Told::Emitted)),
    (10, (1, Said::Collect(0), Told::Found(9, 0, CODE))),
    (10, (1, Said::Collect(1), Told::Found(10, 0, CODE))),
    (11, (1, Said::Image, Told::Emitted)),
];

#[test]
fn one_lookup(rt: HostRuntime) -> Result<(), Fail> {
    check(&rt, rt.alloc(), &HELLO, &HELLO_LIES)
}

/// Two units need each other: nothing is ready before the second is emitted.
const CYCLE: [Line; 19] = [
    (0, Said::Dylib(MAIN), Told::Made(0)),
    (0, Said::Tracker(0), Told::Tracker(0)),
    (0, Said::Define(0, ROUND), Told::Defined(0, 0, 2)),
    (0, Said::Define(0, BACK), Told::Defined(1, 2, 1)),
    (1, Said::Ask(Scope::All, MAIN), Told::Pending(0)),
    (1, Said::Take, Told::Start(0)),
    (1, Said::Place(0, 48), Told::Placed(CODE)),
    (1, Said::Resolve(0), Told::Resolved),
    (1, Said::Link(0), Told::Pending(1)),
    (1, Said::Take, Told::Start(1)),
    (1, Said::Place(1, 32), Told::Placed(CODE + 48)),
    (1, Said::Resolve(1), Told::Resolved),
    (1, Said::Link(1), Told::Done(2)),
    (1, Said::Take, Told::Finish(0, Some((2, CODE + 48)))),
    (1, Said::Emit(0, 0, 1, Some(2)), Told::Emitted),
    (1, Said::Take, Told::Finish(1, Some((1, CODE + 8)))),
    (1, Said::Emit(1, 2, 2, Some(1)), Told::Emitted),
    (1, Said::Collect(0), Told::Found(17, 0, CODE)),
    (1, Said::Image, Told::Image),
];

const CYCLE_LIES: [Lie; 8] = [
    (8, (1, Said::Link(0), Told::Done(1))),
    (9, (1, Said::Take, Told::Start(0))),
    (12, (1, Said::Link(1), Told::Pending(2))),
    (13, (1, Said::Take, Told::Finish(1, Some((1, CODE + 8))))),
    (14, (1, Said::Emit(0, 0, 0, Some(2)), Told::Emitted)),
    (15, (1, Said::Take, Told::Finish(1, Some((1, CODE))))),
    (15, (1, Said::Collect(0), Told::Found(15, 0, CODE))),
    (17, (1, Said::Collect(0), Told::Found(15, 0, CODE))),
];

#[test]
fn a_cycle_of_two_units(rt: HostRuntime) -> Result<(), Fail> {
    check(&rt, rt.alloc(), &CYCLE, &CYCLE_LIES)
}

/// The last of a chain can't be linked, and takes the chain along; a unit beside it is found, where one
/// of the failed units was.
const CHAIN: [Line; 35] = [
    (0, Said::Dylib(MAIN), Told::Made(0)),
    (0, Said::Tracker(0), Told::Tracker(0)),
    (0, Said::Define(0, NEEDS_F), Told::Defined(0, 0, 1)),
    (0, Said::Define(0, NEEDS_H), Told::Defined(1, 1, 1)),
    (0, Said::Define(0, NEEDS_NONE), Told::Defined(2, 2, 1)),
    (0, Said::Define(0, ASIDE), Told::Defined(3, 3, 1)),
    (1, Said::Ask(Scope::All, MAIN), Told::Pending(0)),
    (1, Said::Take, Told::Start(0)),
    (1, Said::Place(0, 32), Told::Placed(CODE)),
    (1, Said::Resolve(0), Told::Resolved),
    (1, Said::Link(0), Told::Pending(1)),
    (1, Said::Take, Told::Start(1)),
    (1, Said::Place(1, 32), Told::Placed(CODE + 32)),
    (1, Said::Resolve(1), Told::Resolved),
    (1, Said::Link(1), Told::Pending(2)),
    (1, Said::Take, Told::Finish(0, Some((1, CODE + 32)))),
    (1, Said::Emit(0, 0, 0, Some(1)), Told::Emitted),
    (1, Said::Take, Told::Start(2)),
    (1, Said::Place(2, 32), Told::Placed(CODE + 64)),
    (1, Said::Resolve(2), Told::Resolved),
    (1, Said::Link(2), Told::Missing(NOSUCH)),
    (1, Said::Fail(2, Why::Missing(NameId(NOSUCH))), Told::Failed),
    (1, Said::Take, Told::Finish(1, Some((2, CODE + 64)))),
    (1, Said::Emit(1, 1, 1, Some(2)), Told::BadDep(2)),
    (1, Said::Fail(1, Why::BadDep(InstId(2))), Told::Failed),
    (1, Said::Collect(0), Told::Lost(25, 0)),
    (1, Said::Ask(Scope::All, K), Told::Pending(3)),
    (1, Said::Take, Told::Start(3)),
    (1, Said::Place(3, 16), Told::Placed(CODE + 32)),
    (1, Said::Resolve(3), Told::Resolved),
    (1, Said::Link(3), Told::Done(4)),
    (1, Said::Take, Told::Finish(3, None)),
    (1, Said::Emit(3, 3, 3, None), Told::Emitted),
    (1, Said::Collect(3), Told::Found(33, 3, CODE + 32)),
    (1, Said::Ask(Scope::All, F), Told::InError(1)),
];

const CHAIN_LIES: [Lie; 13] = [
    (20, (1, Said::Link(2), Told::Done(3))),
    (
        21,
        (1, Said::Fail(2, Why::Missing(NameId(F))), Told::Failed),
    ),
    (21, (1, Said::Fail(2, Why::NoRoom(32)), Told::Failed)),
    (21, (1, Said::Fail(2, Why::Full), Told::Failed)),
    (23, (1, Said::Emit(1, 1, 1, Some(2)), Told::Emitted)),
    (24, (1, Said::Fail(1, Why::BadDep(InstId(1))), Told::Failed)),
    (25, (1, Said::Collect(0), Told::Lost(22, 0))),
    (25, (1, Said::Collect(0), Told::Lost(25, 1))),
    (28, (1, Said::Place(3, 16), Told::Placed(CODE))),
    (28, (1, Said::Place(3, 16), Told::Placed(CODE + 24))),
    (28, (1, Said::Place(3, 16), Told::NoRoom(16))),
    (33, (1, Said::Collect(3), Told::Found(33, 3, CODE + 96))),
    (34, (1, Said::Ask(Scope::All, F), Told::InError(2))),
];

#[test]
fn a_chain_that_fails(rt: HostRuntime) -> Result<(), Fail> {
    check(&rt, rt.alloc(), &CHAIN, &CHAIN_LIES)
}

/// A tracker is removed while its unit is at work; the name is defined once more, and placed where it
/// was.
const REMOVAL: [Line; 14] = [
    (0, Said::Dylib(MAIN), Told::Made(0)),
    (0, Said::Tracker(0), Told::Tracker(0)),
    (0, Said::Define(0, ALONE), Told::Defined(0, 0, 1)),
    (1, Said::Ask(Scope::All, MAIN), Told::Pending(0)),
    (1, Said::Take, Told::Start(0)),
    (1, Said::Place(0, 48), Told::Placed(CODE)),
    (1, Said::Remove(0), Told::Removed),
    (1, Said::Resolve(0), Told::Defunct(0)),
    (1, Said::Collect(0), Told::Lost(7, 0)),
    (1, Said::Tracker(0), Told::Tracker(1)),
    (1, Said::Define(1, ALONE), Told::Defined(1, 1, 1)),
    (1, Said::Ask(Scope::All, MAIN), Told::Pending(1)),
    (1, Said::Take, Told::Start(1)),
    (1, Said::Place(1, 48), Told::Placed(CODE)),
];

const REMOVAL_LIES: [Lie; 8] = [
    (7, (1, Said::Resolve(0), Told::Resolved)),
    (8, (1, Said::Collect(0), Told::Lost(6, 0))),
    (10, (1, Said::Define(1, ALONE), Told::Duplicate(MAIN, 0))),
    (10, (1, Said::Define(0, ALONE), Told::Defined(1, 1, 1))),
    (11, (1, Said::Ask(Scope::All, MAIN), Told::InError(0))),
    (13, (1, Said::Place(1, 48), Told::Placed(CODE + 8))),
    (13, (1, Said::Place(1, 48), Told::NoRoom(48))),
    (13, (1, Said::Place(0, 48), Told::Placed(CODE))),
];

#[test]
fn a_removal_in_the_middle(rt: HostRuntime) -> Result<(), Fail> {
    check(&rt, rt.alloc(), &REMOVAL, &REMOVAL_LIES)
}
