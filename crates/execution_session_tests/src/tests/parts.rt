//! Units with an external.

use super::calls::Call;
use super::play::Step::By;
use super::play::{Table, plays};
use super::units::Named;
use super::{BEGUN, DEFINED, SEAT, SETUP, WAITS};
use orc_ids::NameId;

/// A unit of one byte with the name 0, which looks name 5 up.
const PART: Named = Named {
    name: NameId(0),
    weak: false,
    wants: Some(NameId(5)),
    more: 0,
};

/// The same with the name 5.
const WANTED: Named = Named {
    name: NameId(5),
    weak: false,
    wants: Some(NameId(5)),
    more: 0,
};

const NOWHERE: Table = &[
    By(SETUP, Call::Define(0, 0, PART), DEFINED),
    By(SEAT, Call::LookUp(0, None), WAITS),
    By(SEAT, Call::TakeAndPlace(0), "Ok(Placed(268435456))"),
    By(SEAT, Call::Resolve, "Ok(Resolved)"),
    By(SEAT, Call::Link, "Ok(Missing(NameId(5)))"),
];

#[test]
fn an_external_that_is_nowhere(rt: HostRuntime) {
    plays::<64>(&rt, rt.alloc(), &[BEGUN, NOWHERE], "entries: 8");
}

const OF_ANOTHER: Table = &[
    By(SETUP, Call::Define(0, 0, PART), DEFINED),
    By(
        SETUP,
        Call::Define(0, 0, WANTED),
        "Ok(Defined(UnitId(1), InstId(1), 1))",
    ),
    By(SEAT, Call::LookUp(0, None), WAITS),
    By(SEAT, Call::TakeAndPlace(0), "Ok(Placed(268435456))"),
    By(SEAT, Call::Resolve, "Ok(Resolved)"),
    By(SEAT, Call::Link, "Ok(Pending(QueryId(1)))"),
    By(SEAT, Call::Take, "Ok(Start(UnitId(1))), with its unit"),
];

#[test]
fn an_external_of_another_unit(rt: HostRuntime) {
    plays::<64>(&rt, rt.alloc(), &[BEGUN, OF_ANOTHER], "entries: 10");
}
