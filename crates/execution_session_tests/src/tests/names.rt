//! Names that are defined twice, and names that a generator offers.

use super::calls::Call;
use super::play::Step::By;
use super::play::{Table, plays};
use super::units::{FIRST, Named};
use super::{PREPARED, SEAT, SETUP, WAITS};
use orc_ids::NameId;

/// A weak definition of name 0.
const WEAK: Named = Named {
    name: NameId(0),
    weak: true,
    wants: None,
    more: 47,
};

/// A weak definition of name 1.
const WEAK_ONE: Named = Named {
    name: NameId(1),
    weak: true,
    wants: None,
    more: 47,
};

/// A strong definition of name 1.
const STRONG_ONE: Named = Named {
    name: NameId(1),
    weak: false,
    wants: None,
    more: 47,
};

/// Name 0, which is there, is offered by a weak and by a strong definition.
const CLASHES: Table = &[
    By(
        SETUP,
        Call::Define(0, 0, WEAK),
        "Ok(Defined(UnitId(1), InstId(1), 0))",
    ),
    By(
        SETUP,
        Call::Define(0, 0, FIRST),
        "Ok(Duplicate(NameId(0), InstId(0))), unit back",
    ),
];

/// A strong definition of name 1 replaces a weak one.
const REPLACES: Table = &[
    By(
        SETUP,
        Call::Define(0, 0, WEAK_ONE),
        "Ok(Defined(UnitId(2), InstId(1), 1))",
    ),
    By(
        SETUP,
        Call::Define(0, 0, STRONG_ONE),
        "Ok(Defined(UnitId(3), InstId(2), 1))",
    ),
    By(SEAT, Call::LookUp(1, None), WAITS),
    By(SEAT, Call::Take, "Ok(Start(UnitId(3))), with its unit"),
];

#[test]
fn weak_and_strong_names(rt: HostRuntime) {
    let tables = &[PREPARED, CLASHES, REPLACES];
    plays::<64>(&rt, rt.alloc(), tables, "entries: 9");
}

const CLAIMED: Table = &[
    By(
        SETUP,
        Call::Define(0, 0, WEAK_ONE),
        "Ok(Defined(UnitId(1), InstId(1), 1))",
    ),
    By(SEAT, Call::LookUp(1, None), WAITS),
    By(
        SETUP,
        Call::Define(0, 0, STRONG_ONE),
        "Ok(Duplicate(NameId(1), InstId(1))), unit back",
    ),
];

#[test]
fn a_weak_name_that_is_claimed_stays(rt: HostRuntime) {
    plays::<64>(&rt, rt.alloc(), &[PREPARED, CLAIMED], "entries: 6");
}

const OFFERED: Table = &[
    By(
        SETUP,
        Call::Attach(0, 0, STRONG_ONE),
        "Ok(Generator(GenId(0)))",
    ),
    By(
        SEAT,
        Call::LookUp(1, Some(6)),
        "Ok(Offer(GenId(0))), notifier back",
    ),
];

#[test]
fn a_lookup_matches_a_generator(rt: HostRuntime) {
    plays::<64>(&rt, rt.alloc(), &[PREPARED, OFFERED], "entries: 5");
}
