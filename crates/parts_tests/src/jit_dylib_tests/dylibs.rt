use super::dylib_steps::{Step, play};
use super::expected::Expected;
use super::{COMMON, F, G, H, STRONG, WEAK};
use orc_ids::{DylibId, InstId, OrderItem, Scope};

/// The first dylib, with all its names.
const FIRST: OrderItem = OrderItem {
    dylib: DylibId(0),
    scope: Scope::All,
};

/// The first dylib, with the names that it shows.
const SHOWN_BY_FIRST: OrderItem = OrderItem {
    dylib: DylibId(0),
    scope: Scope::Exported,
};

/// The second dylib, with all its names.
const SECOND: OrderItem = OrderItem {
    dylib: DylibId(1),
    scope: Scope::All,
};

/// The second dylib, with the names that it shows.
const SHOWN_BY_SECOND: OrderItem = OrderItem {
    dylib: DylibId(1),
    scope: Scope::Exported,
};

#[test]
fn a_dylib_looks_in_itself_first(rt: HostRuntime) {
    let steps = &[
        Step::Make(F),
        Step::Has(0, true),
        Step::Has(1, false),
        Step::Order(0, &[FIRST]),
        Step::SetOrder(0, &[SHOWN_BY_FIRST]),
        Step::Order(0, &[FIRST, SHOWN_BY_FIRST]),
        Step::Order(1, &[]),
    ];
    play(&rt, rt.alloc(), steps);
}

#[test]
fn dylibs_are_found_by_name(rt: HostRuntime) {
    let steps = &[
        Step::Find(G, None),
        Step::Make(F),
        Step::Make(G),
        Step::Len(2),
        Step::Find(G, Some(DylibId(1))),
        Step::Find(H, None),
    ];
    play(&rt, rt.alloc(), steps);
}

#[test]
fn each_dylib_has_its_own_names(rt: HostRuntime) {
    let steps = &[
        Step::Make(F),
        Step::Make(G),
        Step::Define(1, &[(F, STRONG)], 5, Expected::Defined(&[true], &[])),
        Step::Row(0, F, None),
        Step::Row(2, F, None),
        Step::Row(1, F, Some(5)),
        Step::Go(1, &[(F, InstId(5))]),
        Step::Row(1, F, None),
    ];
    play(&rt, rt.alloc(), steps);
}

#[test]
fn memory_is_enough_for_each_link_order(rt: HostRuntime) {
    let steps = &[
        Step::Make(F),
        Step::Make(G),
        Step::SetOrder(0, &[]),
        Step::Order(0, &[FIRST]),
        Step::SetOrder(0, &[SECOND]),
        Step::Order(0, &[FIRST, SECOND]),
        Step::SetOrder(0, &[SHOWN_BY_SECOND]),
        Step::Order(0, &[FIRST, SHOWN_BY_SECOND]),
        Step::SetOrder(0, &[SHOWN_BY_SECOND, SECOND]),
        Step::Order(0, &[FIRST, SHOWN_BY_SECOND, SECOND]),
    ];
    play(&rt, rt.alloc(), steps);
}

#[test]
fn memory_is_enough_for_a_definition_of_any_number_of_names(rt: HostRuntime) {
    let two = &[(G, WEAK), (H, STRONG)];
    let steps = &[
        Step::Make(F),
        Step::Define(0, &[], 0, Expected::Defined(&[], &[])),
        Step::Define(0, &[(F, COMMON)], 0, Expected::Defined(&[true], &[])),
        Step::Define(0, two, 1, Expected::Defined(&[true, true], &[])),
    ];
    play(&rt, rt.alloc(), steps);
}
