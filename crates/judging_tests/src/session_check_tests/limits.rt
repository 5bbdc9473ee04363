//! Sessions at their limits, and how a whole history is judged.

use super::judging::{check, check_places, legal};
use super::units::HELLO;
use super::{ALONE, CODE, Lie, Line, MAIN, NOSUCH, Said, Told};
use orc_ids::Scope;
use session_model::Why;
use std::test::Fail;

/// Orders as long as they may be.
const LONG_ORDERS: [Line; 3] = [
    (0, Said::Dylib(MAIN), Told::Made(0)),
    (0, Said::Order(64), Told::Set),
    (1, Said::AskIn(64, NOSUCH), Told::Missing(NOSUCH)),
];

const LONG_ORDERS_LIES: [Lie; 2] = [
    (1, (0, Said::Order(65), Told::Set)),
    (2, (1, Said::AskIn(65, NOSUCH), Told::Missing(NOSUCH))),
];

#[test]
fn the_longest_orders(rt: HostRuntime) -> Result<(), Fail> {
    check(&rt, rt.alloc(), &LONG_ORDERS, &LONG_ORDERS_LIES)
}

/// A unit is given up since a journal of eight places is full.
const FULL: [Line; 8] = [
    (0, Said::Dylib(MAIN), Told::Made(0)),
    (0, Said::Tracker(0), Told::Tracker(0)),
    (0, Said::Define(0, ALONE), Told::Defined(0, 0, 1)),
    (1, Said::Ask(Scope::All, MAIN), Told::Pending(0)),
    (1, Said::Take, Told::Start(0)),
    (1, Said::Place(0, 48), Told::Placed(CODE)),
    (1, Said::Resolve(0), Told::Resolved),
    (1, Said::Fail(0, Why::Full), Told::Failed),
];

/// How many places a journal has, and where the session goes wrong in it.
const FULL_PLACES: [(u64, Option<usize>); 3] = [(8, None), (7, Some(7)), (9, Some(7))];

#[test]
fn a_full_journal(rt: HostRuntime) -> Result<(), Fail> {
    check_places(&rt, rt.alloc(), &FULL, &FULL_PLACES)
}

#[test]
fn what_is_legal(rt: HostRuntime) -> Result<(), Fail> {
    let alloc = rt.alloc();
    assert!(rt; legal(alloc, &HELLO)?);
    assert!(rt; !legal(alloc, &HELLO[1..])?);
    Ok(())
}
