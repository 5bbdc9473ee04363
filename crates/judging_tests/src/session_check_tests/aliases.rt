//! Names that stand for other ones.

use super::judging::check;
use super::{A, ASIDE, B, CODE, K, Lie, Line, MAIN, Said, Told};
use orc_ids::{InstId, Scope};
use session_model::Why;
use std::test::Fail;

/// A name that stands for another one.
const ALIAS: [Line; 18] = [
    (0, Said::Dylib(MAIN), Told::Made(0)),
    (0, Said::Tracker(0), Told::Tracker(0)),
    (0, Said::Define(0, ASIDE), Told::Defined(0, 0, 1)),
    (0, Said::Alias(0, A, 0, K), Told::Defined(1, 1, 1)),
    (1, Said::Ask(Scope::All, A), Told::Pending(0)),
    (1, Said::Take, Told::Start(1)),
    (1, Said::Link(1), Told::Pending(1)),
    (1, Said::Take, Told::Start(0)),
    (1, Said::Place(0, 16), Told::Placed(CODE)),
    (1, Said::Resolve(0), Told::Resolved),
    (1, Said::Link(0), Told::Done(2)),
    (1, Said::Take, Told::Finish(1, Some((0, CODE)))),
    (1, Said::Resolve(1), Told::Resolved),
    (1, Said::Emit(1, 1, 1, Some(0)), Told::Emitted),
    (1, Said::Take, Told::Finish(0, None)),
    (1, Said::Emit(0, 0, 0, None), Told::Emitted),
    (1, Said::Collect(0), Told::Found(16, 1, CODE)),
    (1, Said::Image, Told::Image),
];

const ALIAS_LIES: [Lie; 10] = [
    (3, (0, Said::Alias(0, A, 1, K), Told::Defined(1, 1, 1))),
    (6, (1, Said::Link(1), Told::AliasCycle(0))),
    (6, (1, Said::Link(1), Told::Done(1))),
    (6, (1, Said::Place(1, 16), Told::Placed(CODE))),
    (6, (1, Said::Resolve(1), Told::Resolved)),
    (8, (1, Said::Link(0), Told::Done(2))),
    (12, (1, Said::Emit(1, 1, 1, Some(0)), Told::Emitted)),
    (13, (1, Said::Resolve(1), Told::Resolved)),
    (13, (1, Said::Emit(1, 1, 1, None), Told::Emitted)),
    (16, (1, Said::Collect(0), Told::Found(14, 1, CODE))),
];

#[test]
fn an_alias(rt: HostRuntime) -> Result<(), Fail> {
    check(&rt, rt.alloc(), &ALIAS, &ALIAS_LIES)
}

/// An alias of an alias.
const TWO_ALIASES: [Line; 23] = [
    (0, Said::Dylib(MAIN), Told::Made(0)),
    (0, Said::Tracker(0), Told::Tracker(0)),
    (0, Said::Define(0, ASIDE), Told::Defined(0, 0, 1)),
    (0, Said::Alias(0, B, 0, K), Told::Defined(1, 1, 1)),
    (0, Said::Alias(0, A, 0, B), Told::Defined(2, 2, 1)),
    (1, Said::Ask(Scope::All, A), Told::Pending(0)),
    (1, Said::Take, Told::Start(2)),
    (1, Said::Link(2), Told::Pending(1)),
    (1, Said::Take, Told::Start(1)),
    (1, Said::Link(1), Told::Pending(2)),
    (1, Said::Take, Told::Start(0)),
    (1, Said::Place(0, 16), Told::Placed(CODE)),
    (1, Said::Resolve(0), Told::Resolved),
    (1, Said::Link(0), Told::Done(3)),
    (1, Said::Take, Told::Finish(1, Some((0, CODE)))),
    (1, Said::Resolve(1), Told::Resolved),
    (1, Said::Emit(1, 1, 1, Some(0)), Told::Emitted),
    (1, Said::Take, Told::Finish(0, None)),
    (1, Said::Emit(0, 0, 0, None), Told::Emitted),
    (1, Said::Take, Told::Finish(2, Some((1, CODE)))),
    (1, Said::Resolve(2), Told::Resolved),
    (1, Said::Emit(2, 2, 2, Some(1)), Told::Emitted),
    (1, Said::Collect(0), Told::Found(22, 2, CODE)),
];

const TWO_ALIASES_LIES: [Lie; 5] = [
    (7, (1, Said::Link(2), Told::AliasCycle(1))),
    (9, (1, Said::Link(1), Told::AliasCycle(0))),
    (9, (1, Said::Link(1), Told::AliasCycle(2))),
    (19, (1, Said::Take, Told::Finish(2, Some((0, CODE))))),
    (22, (1, Said::Collect(0), Told::Found(17, 2, CODE))),
];

#[test]
fn an_alias_of_an_alias(rt: HostRuntime) -> Result<(), Fail> {
    check(&rt, rt.alloc(), &TWO_ALIASES, &TWO_ALIASES_LIES)
}

/// Two aliases of each other.
const ROUND_ALIASES: [Line; 13] = [
    (0, Said::Dylib(MAIN), Told::Made(0)),
    (0, Said::Tracker(0), Told::Tracker(0)),
    (0, Said::Alias(0, A, 0, B), Told::Defined(0, 0, 1)),
    (0, Said::Alias(0, B, 0, A), Told::Defined(1, 1, 1)),
    (1, Said::Ask(Scope::All, A), Told::Pending(0)),
    (1, Said::Take, Told::Start(0)),
    (1, Said::Link(0), Told::Pending(1)),
    (1, Said::Take, Told::Start(1)),
    (1, Said::Link(1), Told::AliasCycle(0)),
    (1, Said::Fail(1, Why::AliasCycle(InstId(0))), Told::Failed),
    (1, Said::Take, Told::FinishLost(0, 1)),
    (1, Said::Fail(0, Why::InError(InstId(1))), Told::Failed),
    (1, Said::Collect(0), Told::Lost(12, 0)),
];

const ROUND_ALIASES_LIES: [Lie; 7] = [
    (6, (1, Said::Link(0), Told::AliasCycle(1))),
    (8, (1, Said::Link(1), Told::Pending(2))),
    (8, (1, Said::Link(1), Told::AliasCycle(1))),
    (
        9,
        (1, Said::Fail(1, Why::AliasCycle(InstId(1))), Told::Failed),
    ),
    (9, (1, Said::Fail(1, Why::InError(InstId(0))), Told::Failed)),
    (10, (1, Said::Take, Told::Finish(0, Some((1, CODE))))),
    (12, (1, Said::Collect(0), Told::Lost(10, 0))),
];

#[test]
fn aliases_of_each_other_lead_nowhere(rt: HostRuntime) -> Result<(), Fail> {
    check(&rt, rt.alloc(), &ROUND_ALIASES, &ROUND_ALIASES_LIES)
}

/// An alias of itself.
const OWN_ALIAS: [Line; 7] = [
    (0, Said::Dylib(MAIN), Told::Made(0)),
    (0, Said::Tracker(0), Told::Tracker(0)),
    (0, Said::Alias(0, A, 0, A), Told::Defined(0, 0, 1)),
    (1, Said::Ask(Scope::All, A), Told::Pending(0)),
    (1, Said::Take, Told::Start(0)),
    (1, Said::Link(0), Told::AliasCycle(0)),
    (1, Said::Fail(0, Why::AliasCycle(InstId(0))), Told::Failed),
];

const OWN_ALIAS_LIES: [Lie; 3] = [
    (5, (1, Said::Link(0), Told::Pending(1))),
    (5, (1, Said::Link(0), Told::Missing(A))),
    (
        6,
        (1, Said::Fail(0, Why::AliasCycle(InstId(1))), Told::Failed),
    ),
];

#[test]
fn an_alias_of_itself_leads_nowhere(rt: HostRuntime) -> Result<(), Fail> {
    check(&rt, rt.alloc(), &OWN_ALIAS, &OWN_ALIAS_LIES)
}
