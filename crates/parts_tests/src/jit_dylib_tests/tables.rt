use super::expected::Expected;
use super::table_steps::{Step, defines_one, has_row, play};
use super::{COMMON, F, G, H, STRONG, WEAK};
use jit_dylib::Table;
use orc_ids::{InstId, NameId};

/// One name stays.
const STAYS: Expected = Expected::Defined(&[true], &[]);

/// One name is discarded.
const DISCARDED: Expected = Expected::Defined(&[false], &[]);

/// No lookup has asked for the two instances.
const BOTH_UNSEARCHED: &[bool] = &[false, false];

/// A lookup has asked for the first of two instances.
const FIRST_CLAIMED: &[bool] = &[true, false];

#[test]
fn a_name_stands_for_its_definition(rt: HostRuntime) {
    let steps = &[
        Step::NoRow(F),
        Step::Define(&[(F, STRONG)], 4, STAYS),
        Step::Row(F, 4, STRONG),
        Step::NoRow(G),
    ];
    play(&rt, rt.alloc(), &[], steps);
}

#[test]
fn a_weak_name_is_discarded_over_any_definition(rt: HostRuntime) {
    let steps = &[
        Step::Define(&[(F, STRONG)], 0, STAYS),
        Step::Define(&[(F, WEAK)], 1, DISCARDED),
        Step::Row(F, 0, STRONG),
        Step::Define(&[(G, WEAK)], 1, STAYS),
        Step::Define(&[(G, COMMON)], 2, DISCARDED),
        Step::Row(G, 1, WEAK),
    ];
    play(&rt, rt.alloc(), BOTH_UNSEARCHED, steps);
}

#[test]
fn a_strong_name_replaces_an_unsearched_weak_one(rt: HostRuntime) {
    let steps = &[
        Step::Define(&[(F, WEAK)], 0, STAYS),
        Step::Define(&[(F, STRONG)], 2, Expected::Defined(&[true], &[InstId(0)])),
        Step::Row(F, 2, STRONG),
        Step::Define(&[(G, COMMON)], 1, STAYS),
        Step::Define(&[(G, STRONG)], 3, Expected::Defined(&[true], &[InstId(1)])),
        Step::Row(G, 3, STRONG),
    ];
    play(&rt, rt.alloc(), BOTH_UNSEARCHED, steps);
}

#[test]
fn a_strong_name_is_a_duplicate_of_any_other(rt: HostRuntime) {
    let steps = &[
        Step::Define(&[(F, WEAK)], 0, STAYS),
        Step::Define(&[(F, STRONG)], 2, Expected::Duplicate(F, InstId(0))),
        Step::Row(F, 0, WEAK),
        Step::Define(&[(G, STRONG)], 1, STAYS),
        Step::Define(&[(G, STRONG)], 2, Expected::Duplicate(G, InstId(1))),
        Step::Row(G, 1, STRONG),
    ];
    play(&rt, rt.alloc(), FIRST_CLAIMED, steps);
}

#[test]
fn the_first_duplicate_is_told_and_nothing_is_defined(rt: HostRuntime) {
    let all = &[(F, STRONG), (G, STRONG), (H, STRONG)];
    let steps = &[
        Step::Define(&[(G, STRONG)], 0, STAYS),
        Step::Define(&[(H, STRONG)], 1, STAYS),
        Step::Define(all, 2, Expected::Duplicate(G, InstId(0))),
        Step::NoRow(F),
        Step::Row(G, 0, STRONG),
        Step::Row(H, 1, STRONG),
    ];
    play(&rt, rt.alloc(), &[], steps);
}

#[test]
fn only_names_that_stay_are_numbered(rt: HostRuntime) {
    let all = &[(F, WEAK), (G, COMMON), (H, STRONG)];
    let steps = &[
        Step::Define(&[(G, STRONG)], 0, STAYS),
        Step::Define(all, 7, Expected::Defined(&[true, false, true], &[])),
        Step::Row(F, 7, WEAK),
        Step::Row(G, 0, STRONG),
        Step::Row(H, 8, STRONG),
    ];
    play(&rt, rt.alloc(), &[], steps);
}

#[test]
fn what_goes_can_be_defined_again(rt: HostRuntime) {
    let steps = &[
        Step::Define(&[(F, STRONG)], 0, STAYS),
        Step::Define(&[(G, STRONG)], 1, STAYS),
        Step::Go(&[(F, InstId(0)), (G, InstId(0))]),
        Step::NoRow(F),
        Step::Row(G, 1, STRONG),
        Step::Define(&[(F, WEAK)], 2, STAYS),
        Step::Go(&[(F, InstId(0))]),
        Step::Row(F, 2, WEAK),
    ];
    play(&rt, rt.alloc(), &[], steps);
}

/// Defines as many names as a session has instances.
fn define_all(table: &mut Table) -> bool {
    for number in 0..262_144 {
        if !defines_one(table, NameId(number), STRONG, number) {
            return false;
        }
    }
    true
}

/// All these names go.
fn drop_all(table: &mut Table) {
    for number in 0..262_144 {
        table.drop_rows(&[(NameId(number), InstId(number))]);
    }
}

#[test]
fn as_many_names_as_a_session_has_instances(rt: HostRuntime) {
    let mut table = Table::new(rt.alloc());
    assert!(rt; define_all(&mut table));
    assert!(rt; has_row(&table, NameId(262_143), 262_143, STRONG));
    drop_all(&mut table);
    assert!(rt; table.row(NameId(0)).is_none());
}
