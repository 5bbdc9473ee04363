//! Orders and lookups of no item, one and two, in both scopes and at both levels.

use super::calls::{Call, Tried};
use super::play::Step::{By, Each, HandsOut};
use super::play::{Table, plays, write_answer};
use super::{PREPARED, SEAT, SETUP};
use orc_ids::{DylibId, Level, NameId, OrderItem, Scope, Wanted};
use std::alloc::Global;

const ALL: OrderItem = OrderItem {
    dylib: DylibId(0),
    scope: Scope::All,
};

const EXPORTED: OrderItem = OrderItem {
    dylib: DylibId(1),
    scope: Scope::Exported,
};

/// The exported names of the first dylib.
const SHOWN: OrderItem = OrderItem {
    dylib: DylibId(0),
    scope: Scope::Exported,
};

/// The name of the one definition.
const DEFINED: Wanted = Wanted {
    name: NameId(0),
    weak: false,
};

/// A name that nothing defines, which may be missing.
const WEAK: Wanted = Wanted {
    name: NameId(9),
    weak: true,
};

const ORDERS: Table = &[
    By(SETUP, Call::Dylib(8), "Ok(Made(DylibId(1)))"),
    By(SETUP, Call::SetOrder(0, &[]), "Ok(Set)"),
    By(SETUP, Call::SetOrder(0, &[ALL]), "Ok(Set)"),
    By(SETUP, Call::SetOrder(0, &[EXPORTED]), "Ok(Set)"),
    By(SETUP, Call::SetOrder(0, &[EXPORTED, ALL]), "Ok(Set)"),
];

/// A lookup of no name settles at once, and finds nothing.
const NOTHING: Table = &[
    By(
        SEAT,
        Call::Ask(&[], &[], Level::Resolved, None),
        "Ok(Done(QueryId(0)))",
    ),
    By(SEAT, Call::Collect(0), "Ok(Found(9, Items { items: [] }))"),
];

/// Without a dylib to look in, a name that has to be there is missing, and another one is not.
const NOWHERE: Table = &[
    By(
        SEAT,
        Call::Ask(&[], &[DEFINED], Level::Ready, None),
        "Ok(Missing(NameId(0)))",
    ),
    By(
        SEAT,
        Call::Ask(&[], &[WEAK], Level::Ready, None),
        "Ok(Done(QueryId(1)))",
    ),
];

/// In one dylib and in two, one name and two are asked for, and the query waits for the definition.
const SOME: Table = &[
    By(
        SEAT,
        Call::Ask(&[ALL], &[DEFINED], Level::Resolved, None),
        "Ok(Pending(QueryId(2)))",
    ),
    By(
        SEAT,
        Call::Ask(&[EXPORTED, ALL], &[WEAK, DEFINED], Level::Ready, None),
        "Ok(Pending(QueryId(3)))",
    ),
];

#[test]
fn no_item_one_and_two(rt: HostRuntime) {
    let tables = &[PREPARED, ORDERS, NOTHING, NOWHERE, SOME];
    plays::<64>(&rt, rt.alloc(), tables, "entries: 14");
}

/// A lookup of these names, the note of its notifier where it has one, and how its answer begins.
#[derive(Clone, Copy)]
pub(super) struct Lookup<'a> {
    wanted: &'a [Wanted],
    note: u32,
    begins: &'a str,
}

/// Lookups of no name, one and two in an order that shows the definition. Those that need it wait for it.
const WHERE_SHOWN: &[Lookup<'static>] = &[
    Lookup {
        wanted: &[],
        note: 0,
        begins: "Ok(Done(",
    },
    Lookup {
        wanted: &[WEAK],
        note: 1,
        begins: "Ok(Done(",
    },
    Lookup {
        wanted: &[DEFINED],
        note: 2,
        begins: "Ok(Pending(",
    },
    Lookup {
        wanted: &[WEAK, DEFINED],
        note: 3,
        begins: "Ok(Pending(",
    },
];

/// The same in an order that doesn't show the definition. For those that need it, it is missing.
const WHERE_HIDDEN: &[Lookup<'static>] = &[
    Lookup {
        wanted: &[],
        note: 0,
        begins: "Ok(Done(",
    },
    Lookup {
        wanted: &[WEAK],
        note: 1,
        begins: "Ok(Done(",
    },
    Lookup {
        wanted: &[DEFINED],
        note: 2,
        begins: "Ok(Missing(NameId(0)))",
    },
    Lookup {
        wanted: &[WEAK, DEFINED],
        note: 3,
        begins: "Ok(Missing(NameId(0)))",
    },
];

/// The lookups are made in the order at the level, each with a notifier where one is wanted.
fn asks_at<const JMAX: usize>(
    alloc: Global,
    session: &mut Tried<JMAX>,
    order: &[OrderItem],
    lookups: &[Lookup],
    level: Level,
    is_watched: bool,
    text: &mut String,
) -> bool {
    for lookup in lookups {
        let note = if is_watched { Some(lookup.note) } else { None };
        let call = Call::Ask(order, lookup.wanted, level, note);
        write_answer(alloc, session, SEAT, call, text);
        if !text.starts_with(lookup.begins) {
            return false;
        }
    }
    true
}

/// The lookups are made in the order, at both levels, without notifiers and with them.
pub(super) fn asks_each<const JMAX: usize>(
    alloc: Global,
    session: &mut Tried<JMAX>,
    order: &[OrderItem],
    lookups: &[Lookup],
    text: &mut String,
) -> bool {
    asks_at(alloc, session, order, lookups, Level::Resolved, false, text)
        && asks_at(alloc, session, order, lookups, Level::Ready, false, text)
        && asks_at(alloc, session, order, lookups, Level::Resolved, true, text)
        && asks_at(alloc, session, order, lookups, Level::Ready, true, text)
}

const LOOKUPS: Table = &[
    By(SETUP, Call::Dylib(8), "Ok(Made(DylibId(1)))"),
    Each(&[], WHERE_HIDDEN),
    Each(&[EXPORTED], WHERE_HIDDEN),
    Each(&[ALL], WHERE_SHOWN),
    Each(&[SHOWN], WHERE_SHOWN),
    Each(&[EXPORTED, ALL], WHERE_SHOWN),
];

/// The notifiers of the lookups that wait: two at each level in each of three orders.
const LEFT: Table = &[
    HandsOut(2),
    HandsOut(3),
    HandsOut(2),
    HandsOut(3),
    HandsOut(2),
    HandsOut(3),
    HandsOut(2),
    HandsOut(3),
    HandsOut(2),
    HandsOut(3),
    HandsOut(2),
    HandsOut(3),
];

/// With ample memory a lookup is never stopped for want of it, whatever its order, its names, its
/// level and its notifier.
#[test]
fn memory_is_enough_for_each_lookup(rt: HostRuntime) {
    plays::<128>(&rt, rt.alloc(), &[PREPARED, LOOKUPS, LEFT], "entries: 84");
}
