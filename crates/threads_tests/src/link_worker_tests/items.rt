//! Lookups of no name, one and two, in each kind of order, at both levels, with a notifier and without: none
//! ends for want of memory where there is enough.

use super::play::{End, Step, played};
use super::units::Named;
use super::{ALL, FIRST, OFFERED};
use orc_ids::Level::{Ready, Resolved};
use orc_ids::{DylibId, NameId, OrderItem, Scope, Wanted};

/// The first dylib, with the names that it exports.
const EXPORTED: OrderItem = OrderItem {
    dylib: DylibId(0),
    scope: Scope::Exported,
};

/// A name that nothing defines, which may be missing.
const WEAK: Wanted = Wanted {
    name: NameId(9),
    weak: true,
};

#[test]
fn memory_is_enough_for_each_lookup(rt: HostRuntime) {
    let steps = [
        Step::Dylib,
        Step::Tracker,
        Step::Attach(0),
        Step::Look(&[], &[], Resolved, End::Found(0, None)),
        Step::Look(&[], &[WEAK], Resolved, End::Found(1, None)),
        Step::Look(&[], &[OFFERED], Resolved, End::Missing(OFFERED.name)),
        Step::Look(&[], &[WEAK, OFFERED], Resolved, End::Missing(OFFERED.name)),
        Step::Look(&[], &[], Ready, End::Found(0, None)),
        Step::Look(&[], &[WEAK], Ready, End::Found(1, None)),
        Step::Look(&[], &[OFFERED], Ready, End::Missing(OFFERED.name)),
        Step::Look(&[], &[WEAK, OFFERED], Ready, End::Missing(OFFERED.name)),
        Step::Look(&[ALL], &[], Resolved, End::Found(0, None)),
        Step::Look(&[ALL], &[WEAK], Resolved, End::Found(1, None)),
        Step::Look(&[ALL], &[OFFERED], Resolved, End::Found(1, FIRST)),
        Step::Look(&[ALL], &[WEAK, OFFERED], Resolved, End::Found(2, FIRST)),
        Step::Look(&[ALL], &[], Ready, End::Found(0, None)),
        Step::Look(&[ALL], &[WEAK], Ready, End::Found(1, None)),
        Step::Look(&[ALL], &[OFFERED], Ready, End::Found(1, FIRST)),
        Step::Look(&[ALL], &[WEAK, OFFERED], Ready, End::Found(2, FIRST)),
        Step::Look(&[EXPORTED], &[], Resolved, End::Found(0, None)),
        Step::Look(&[EXPORTED], &[WEAK], Resolved, End::Found(1, None)),
        Step::Look(&[EXPORTED], &[OFFERED], Resolved, End::Found(1, FIRST)),
        Step::Look(
            &[EXPORTED],
            &[WEAK, OFFERED],
            Resolved,
            End::Found(2, FIRST),
        ),
        Step::Look(&[EXPORTED], &[], Ready, End::Found(0, None)),
        Step::Look(&[EXPORTED], &[WEAK], Ready, End::Found(1, None)),
        Step::Look(&[EXPORTED], &[OFFERED], Ready, End::Found(1, FIRST)),
        Step::Look(&[EXPORTED], &[WEAK, OFFERED], Ready, End::Found(2, FIRST)),
        Step::Look(&[EXPORTED, ALL], &[], Resolved, End::Found(0, None)),
        Step::Look(&[EXPORTED, ALL], &[WEAK], Resolved, End::Found(1, None)),
        Step::Look(&[EXPORTED, ALL], &[OFFERED], Resolved, End::Found(1, FIRST)),
        Step::Look(
            &[EXPORTED, ALL],
            &[WEAK, OFFERED],
            Resolved,
            End::Found(2, FIRST),
        ),
        Step::Look(&[EXPORTED, ALL], &[], Ready, End::Found(0, None)),
        Step::Look(&[EXPORTED, ALL], &[WEAK], Ready, End::Found(1, None)),
        Step::Look(&[EXPORTED, ALL], &[OFFERED], Ready, End::Found(1, FIRST)),
        Step::Look(
            &[EXPORTED, ALL],
            &[WEAK, OFFERED],
            Ready,
            End::Found(2, FIRST),
        ),
    ];
    let ended = played::<Named, 128>(&rt, rt.alloc(), &[Named::strong(0)], &steps);
    assert!(rt; matches!(ended, Ok(65..)));
}

#[test]
fn memory_is_enough_for_each_lookup_with_a_notifier(rt: HostRuntime) {
    let both = [EXPORTED, ALL];
    let steps = [
        Step::Dylib,
        Step::Tracker,
        Step::Attach(0),
        Step::Watch(0, &[], &[], Resolved, End::Found(0, None)),
        Step::Watch(1, &[ALL], &[OFFERED], Resolved, End::Found(1, FIRST)),
        Step::Watch(2, &both, &[WEAK, OFFERED], Resolved, End::Found(2, FIRST)),
        Step::Watch(0, &[], &[], Ready, End::Found(0, None)),
        Step::Watch(1, &[ALL], &[OFFERED], Ready, End::Found(1, FIRST)),
        Step::Watch(2, &both, &[WEAK, OFFERED], Ready, End::Found(2, FIRST)),
    ];
    let ended = played::<Named, 64>(&rt, rt.alloc(), &[Named::strong(0)], &steps);
    assert!(rt; matches!(ended, Ok(13..)));
}
