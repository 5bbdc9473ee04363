//! Lookups of what is there already.

use super::calls::Call;
use super::play::Step::By;
use super::play::{Table, plays};
use super::{EMITTED, PLACED, SEAT};

/// What the second query's end is.
const FOUND: &str = "Ok(Found(11, Items { items: [Some((InstId(0), 268435456))] }))";

/// The name is looked up again.
const AGAIN: Table = &[
    By(SEAT, Call::LookUp(0, None), "Ok(Done(QueryId(2)))"),
    By(SEAT, Call::Collect(2), FOUND),
];

#[test]
fn a_lookup_of_what_is_ready(rt: HostRuntime) {
    plays::<64>(&rt, rt.alloc(), &[PLACED, EMITTED, AGAIN], "entries: 12");
}
