//! Names of two definitions, hidden names, and names that a generator offers.

use super::judging::check;
use super::{ALONE, CODE, F, H, HIDDEN_H, Lie, Line, MAIN, STRONG_F, Said, Told, WEAK_F};
use orc_ids::Scope;
use std::test::Fail;

/// A strong definition takes the place of a weak one that no lookup has asked for.
const STRONG_OVER_WEAK: [Line; 18] = [
    (0, Said::Dylib(MAIN), Told::Made(0)),
    (0, Said::Tracker(0), Told::Tracker(0)),
    (0, Said::Define(0, WEAK_F), Told::Defined(0, 0, 2)),
    (0, Said::Define(0, STRONG_F), Told::Defined(1, 2, 1)),
    (1, Said::Ask(Scope::All, MAIN), Told::Pending(0)),
    (1, Said::Take, Told::Start(0)),
    (1, Said::Place(0, 48), Told::Placed(CODE)),
    (1, Said::Resolve(0), Told::Resolved),
    (1, Said::Link(0), Told::Pending(1)),
    (1, Said::Take, Told::Start(1)),
    (1, Said::Place(1, 8), Told::Placed(CODE + 48)),
    (1, Said::Resolve(1), Told::Resolved),
    (1, Said::Link(1), Told::Done(2)),
    (1, Said::Take, Told::Finish(0, Some((2, CODE + 48)))),
    (1, Said::Emit(0, 0, 0, Some(2)), Told::Emitted),
    (1, Said::Take, Told::Finish(1, None)),
    (1, Said::Emit(1, 2, 2, None), Told::Emitted),
    (1, Said::Collect(0), Told::Found(17, 0, CODE)),
];

const STRONG_OVER_WEAK_LIES: [Lie; 5] = [
    (3, (0, Said::Define(0, STRONG_F), Told::Duplicate(F, 1))),
    (3, (0, Said::Define(0, STRONG_F), Told::Defined(1, 2, 0))),
    (8, (1, Said::Link(0), Told::Done(1))),
    (13, (1, Said::Take, Told::Finish(0, Some((1, CODE + 8))))),
    (14, (1, Said::Emit(0, 0, 1, Some(2)), Told::Emitted)),
];

#[test]
fn a_strong_definition_over_a_weak_one(rt: HostRuntime) -> Result<(), Fail> {
    check(&rt, rt.alloc(), &STRONG_OVER_WEAK, &STRONG_OVER_WEAK_LIES)
}

/// A hidden name is seen by an order of everything, and by no order of exported names.
const HIDDEN: [Line; 12] = [
    (0, Said::Dylib(MAIN), Told::Made(0)),
    (0, Said::Tracker(0), Told::Tracker(0)),
    (0, Said::Define(0, HIDDEN_H), Told::Defined(0, 0, 2)),
    (1, Said::Ask(Scope::Exported, H), Told::Missing(H)),
    (1, Said::Ask(Scope::All, H), Told::Pending(0)),
    (1, Said::Take, Told::Start(0)),
    (1, Said::Place(0, 16), Told::Placed(CODE)),
    (1, Said::Resolve(0), Told::Resolved),
    (1, Said::Link(0), Told::Done(1)),
    (1, Said::Take, Told::Finish(0, None)),
    (1, Said::Emit(0, 0, 1, None), Told::Emitted),
    (1, Said::Collect(0), Told::Found(11, 0, CODE)),
];

const HIDDEN_LIES: [Lie; 4] = [
    (3, (1, Said::Ask(Scope::Exported, H), Told::Pending(0))),
    (
        3,
        (1, Said::Ask(Scope::Exported, MAIN), Told::Missing(MAIN)),
    ),
    (4, (1, Said::Ask(Scope::All, H), Told::Missing(H))),
    (11, (1, Said::Collect(0), Told::Found(11, 1, CODE + 8))),
];

#[test]
fn a_hidden_name(rt: HostRuntime) -> Result<(), Fail> {
    check(&rt, rt.alloc(), &HIDDEN, &HIDDEN_LIES)
}

/// Two seats find the one generator of a name, and the second to use it is told that it is spent.
const GENERATOR: [Line; 17] = [
    (0, Said::Dylib(MAIN), Told::Made(0)),
    (0, Said::Tracker(0), Told::Tracker(0)),
    (0, Said::Attach(0, ALONE), Told::Generator(0)),
    (1, Said::Ask(Scope::All, MAIN), Told::Offer(0)),
    (2, Said::Ask(Scope::All, MAIN), Told::Offer(0)),
    (1, Said::Generate(0), Told::Defined(0, 0, 1)),
    (2, Said::Generate(0), Told::Spent(0)),
    (1, Said::Ask(Scope::All, MAIN), Told::Pending(0)),
    (2, Said::Ask(Scope::All, MAIN), Told::Pending(1)),
    (1, Said::Take, Told::Start(0)),
    (1, Said::Place(0, 48), Told::Placed(CODE)),
    (1, Said::Resolve(0), Told::Resolved),
    (1, Said::Link(0), Told::Done(2)),
    (1, Said::Take, Told::Finish(0, None)),
    (1, Said::Emit(0, 0, 0, None), Told::Emitted),
    (1, Said::Collect(0), Told::Found(15, 0, CODE)),
    (2, Said::Collect(1), Told::Found(15, 0, CODE)),
];

const GENERATOR_LIES: [Lie; 5] = [
    (3, (1, Said::Ask(Scope::All, MAIN), Told::Missing(MAIN))),
    (6, (2, Said::Generate(0), Told::Duplicate(MAIN, 0))),
    (8, (2, Said::Ask(Scope::All, MAIN), Told::Done(1))),
    (10, (2, Said::Place(0, 48), Told::Placed(CODE))),
    (16, (2, Said::Collect(1), Told::Found(15, 0, CODE + 8))),
];

#[test]
fn one_generator_and_two_seats(rt: HostRuntime) -> Result<(), Fail> {
    check(&rt, rt.alloc(), &GENERATOR, &GENERATOR_LIES)
}
