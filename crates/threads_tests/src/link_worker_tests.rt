//! Lookups of one pass, each test a table of what the pass does in turn and how each lookup ends.

mod items;
mod objects;
mod play;
mod preparing;
mod stages;
mod units;

use orc_ids::Level::Ready;
use orc_ids::{DylibId, InstId, NameId, OrderItem, Scope, Wanted};
use play::{End, Step, played};
use units::Named;

/// The first dylib, with all of its names.
const ALL: OrderItem = OrderItem {
    dylib: DylibId(0),
    scope: Scope::All,
};

/// The name that the one generator offers.
const OFFERED: Wanted = Wanted {
    name: NameId(0),
    weak: false,
};

/// A name that nothing defines.
const NOWHERE: Wanted = Wanted {
    name: NameId(9),
    weak: false,
};

/// The first instance, at the start of code memory.
const FIRST: Option<(InstId, u64)> = Some((InstId(0), 0x1000_0000));

#[test]
fn a_lookup_uses_a_generator_and_does_its_jobs(rt: HostRuntime) {
    let steps = [
        Step::Dylib,
        Step::Tracker,
        Step::Attach(0),
        Step::Look(&[ALL], &[OFFERED], Ready, End::Found(1, FIRST)),
        Step::Idle,
    ];
    let ended = played::<Named, 64>(&rt, rt.alloc(), &[Named::strong(0)], &steps);
    assert_eq!(rt; ended, Ok(13));
}

#[test]
fn a_name_that_is_nowhere_and_a_dylib_that_is_not(rt: HostRuntime) {
    let steps = [
        Step::Look(&[ALL], &[NOWHERE], Ready, End::NoDylib(DylibId(0))),
        Step::Dylib,
        Step::Tracker,
        Step::Attach(0),
        Step::Look(&[ALL], &[NOWHERE], Ready, End::Missing(NameId(9))),
    ];
    let ended = played::<Named, 64>(&rt, rt.alloc(), &[Named::strong(0)], &steps);
    assert_eq!(rt; ended, Ok(5));
}

#[test]
fn a_full_journal_ends_the_job_and_the_lookup(rt: HostRuntime) {
    let steps = [
        Step::Dylib,
        Step::Tracker,
        Step::Attach(0),
        Step::Look(&[ALL], &[OFFERED], Ready, End::JournalFull(9)),
    ];
    let ended = played::<Named, 10>(&rt, rt.alloc(), &[Named::strong(0)], &steps);
    assert_eq!(rt; ended, Ok(10));
}
