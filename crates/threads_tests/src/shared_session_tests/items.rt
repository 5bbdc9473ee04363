//! Orders and lookups of no item, one and two, and what becomes of trackers: none of these calls of a pass is
//! stopped for want of memory where there is enough.

use super::ends::played;
use super::steps::Step;
use super::units::Named;
use super::{ALL, OFFERED};
use orc_ids::Level::{Ready, Resolved};
use orc_ids::{DylibId, NameId, OrderItem, Scope, Wanted};

/// The first dylib, with the names that it exports.
const EXPORTED: OrderItem = OrderItem {
    dylib: DylibId(0),
    scope: Scope::Exported,
};

/// A name that nothing defines, which may be missing.
const WEAK: Wanted = Wanted {
    name: NameId(9),
    weak: true,
};

/// The answer where an order shows the offered name.
const OFFER: &str = "Ok(Offer(GenId(0)))";

/// The answer where it doesn't.
const MISSING: &str = "Ok(Missing(NameId(0)))";

#[test]
fn memory_is_enough_for_each_order_and_lookup(rt: HostRuntime) {
    let steps = [
        Step::Dylib("Ok(Made(DylibId(0)))"),
        Step::Tracker("Ok(Tracker(TrackId(0)))"),
        Step::Attach("Ok(Generator(GenId(0)))"),
        Step::Order(&[], "Ok(Set)"),
        Step::Ask(&[], &[], Resolved, "Ok(Done(QueryId(0)))"),
        Step::Ask(&[], &[WEAK], Resolved, "Ok(Done(QueryId(1)))"),
        Step::Ask(&[], &[OFFERED], Resolved, MISSING),
        Step::Ask(&[], &[WEAK, OFFERED], Resolved, MISSING),
        Step::Ask(&[], &[], Ready, "Ok(Done(QueryId(2)))"),
        Step::Ask(&[], &[WEAK], Ready, "Ok(Done(QueryId(3)))"),
        Step::Ask(&[], &[OFFERED], Ready, MISSING),
        Step::Ask(&[], &[WEAK, OFFERED], Ready, MISSING),
        Step::Order(&[ALL], "Ok(Set)"),
        Step::Ask(&[ALL], &[], Resolved, "Ok(Done(QueryId(4)))"),
        Step::Ask(&[ALL], &[WEAK], Resolved, "Ok(Done(QueryId(5)))"),
        Step::Ask(&[ALL], &[OFFERED], Resolved, OFFER),
        Step::Ask(&[ALL], &[WEAK, OFFERED], Resolved, OFFER),
        Step::Ask(&[ALL], &[], Ready, "Ok(Done(QueryId(6)))"),
        Step::Ask(&[ALL], &[WEAK], Ready, "Ok(Done(QueryId(7)))"),
        Step::Ask(&[ALL], &[OFFERED], Ready, OFFER),
        Step::Ask(&[ALL], &[WEAK, OFFERED], Ready, OFFER),
        Step::Order(&[EXPORTED], "Ok(Set)"),
        Step::Ask(&[EXPORTED], &[], Resolved, "Ok(Done(QueryId(8)))"),
        Step::Ask(&[EXPORTED], &[WEAK], Resolved, "Ok(Done(QueryId(9)))"),
        Step::Ask(&[EXPORTED], &[OFFERED], Resolved, OFFER),
        Step::Ask(&[EXPORTED], &[WEAK, OFFERED], Resolved, OFFER),
        Step::Ask(&[EXPORTED], &[], Ready, "Ok(Done(QueryId(10)))"),
        Step::Ask(&[EXPORTED], &[WEAK], Ready, "Ok(Done(QueryId(11)))"),
        Step::Ask(&[EXPORTED], &[OFFERED], Ready, OFFER),
        Step::Ask(&[EXPORTED], &[WEAK, OFFERED], Ready, OFFER),
        Step::Order(&[EXPORTED, ALL], "Ok(Set)"),
        Step::Ask(&[EXPORTED, ALL], &[], Resolved, "Ok(Done(QueryId(12)))"),
        Step::Ask(&[EXPORTED, ALL], &[WEAK], Resolved, "Ok(Done(QueryId(13)))"),
        Step::Ask(&[EXPORTED, ALL], &[OFFERED], Resolved, OFFER),
        Step::Ask(&[EXPORTED, ALL], &[WEAK, OFFERED], Resolved, OFFER),
        Step::Ask(&[EXPORTED, ALL], &[], Ready, "Ok(Done(QueryId(14)))"),
        Step::Ask(&[EXPORTED, ALL], &[WEAK], Ready, "Ok(Done(QueryId(15)))"),
        Step::Ask(&[EXPORTED, ALL], &[OFFERED], Ready, OFFER),
        Step::Ask(&[EXPORTED, ALL], &[WEAK, OFFERED], Ready, OFFER),
    ];
    let ended = played::<Named, 64>(&rt, rt.alloc(), &[Named::strong(0)], &steps);
    assert_eq!(rt; ended, Ok(39));
}

#[test]
fn memory_is_enough_for_what_becomes_of_trackers(rt: HostRuntime) {
    let steps = [
        Step::Dylib("Ok(Made(DylibId(0)))"),
        Step::Tracker("Ok(Tracker(TrackId(0)))"),
        Step::Attach("Ok(Generator(GenId(0)))"),
        Step::Tracker("Ok(Tracker(TrackId(1)))"),
        Step::Tracker("Ok(Tracker(TrackId(2)))"),
        Step::Move("Ok(Moved)"),
        Step::Move("Ok(TrackerGone(TrackId(0)))"),
        Step::Remove(1, "Ok(Removed)"),
        Step::Remove(2, "Ok(Removed)"),
        Step::Remove(2, "Ok(TrackerGone(TrackId(2)))"),
        Step::Copy,
    ];
    let ended = played::<Named, 64>(&rt, rt.alloc(), &[Named::strong(0)], &steps);
    assert_eq!(rt; ended, Ok(11));
}
