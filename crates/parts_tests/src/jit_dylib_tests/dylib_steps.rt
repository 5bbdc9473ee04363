use super::expected::{Expected, is_expected, may_define};
use jit_dylib::Dylibs;
use orc_ids::{DYLIB_LIMIT, DylibId, InstId, NameId, OrderItem, SymFlags};
use std::alloc::Global;
use std::process::Abort;

/// What the dylibs of a session are asked, and what is answered.
#[derive(Drop)]
pub(super) enum Step<'a> {
    /// One more dylib is made, of this name.
    Make(NameId),
    /// The dylib gets a link order, of itself and then these.
    SetOrder(u32, &'a [OrderItem]),
    /// These names are defined in the dylib, with instances from this number on.
    Define(u32, &'a [(NameId, SymFlags)], u32, Expected<'a>),
    /// The rows of these instances go from the dylib.
    Go(u32, &'a [(NameId, InstId)]),
    /// How many dylibs there are.
    Len(usize),
    /// The dylib exists, or it doesn't.
    Has(u32, bool),
    /// The first dylib of this name.
    Find(NameId, Option<DylibId>),
    /// The link order of the dylib.
    Order(u32, &'a [OrderItem]),
    /// The instance of the name's present row in the dylib.
    Row(u32, NameId, Option<u32>),
}

fn makes(dylibs: &mut Dylibs, name: NameId) -> bool {
    dylibs.len() < DYLIB_LIMIT && dylibs.make(name).is_ok()
}

fn sets_order(dylibs: &mut Dylibs, d: u32, order: &[OrderItem]) -> bool {
    dylibs.has(DylibId(d)) && dylibs.set_order(DylibId(d), order).is_ok()
}

/// Whether the names are defined as the step says.
fn defines(
    dylibs: &mut Dylibs,
    d: u32,
    offers: &[(NameId, SymFlags)],
    first: u32,
    expected: &Expected,
) -> bool {
    if !dylibs.has(DylibId(d)) || !may_define(offers, first) {
        return false;
    }
    is_expected(
        &dylibs.define(DylibId(d), offers, InstId(first), &[]),
        expected,
    )
}

fn goes(dylibs: &mut Dylibs, d: u32, gone: &[(NameId, InstId)]) -> bool {
    if !dylibs.has(DylibId(d)) {
        return false;
    }
    dylibs.drop_rows(DylibId(d), gone);
    true
}

/// The instance of the name's present row.
fn instance(dylibs: &Dylibs, d: u32, name: NameId) -> Option<u32> {
    Some(dylibs.row(DylibId(d), name)?.inst.0)
}

/// Whether the question is answered as it says; no question changes anything.
fn is_answered(dylibs: &Dylibs, step: &Step) -> bool {
    match step {
        Step::Len(count) => dylibs.len() == *count,
        Step::Has(d, there) => dylibs.has(DylibId(*d)) == *there,
        Step::Find(name, d) => dylibs.find(*name) == *d,
        Step::Order(d, order) => dylibs.order(DylibId(*d)) == *order,
        Step::Row(d, name, number) => instance(dylibs, *d, *name) == *number,
        _ => false,
    }
}

/// Whether the step is done, or answered, as it says.
fn is_done(dylibs: &mut Dylibs, step: &Step) -> bool {
    match step {
        Step::Make(name) => makes(dylibs, *name),
        Step::SetOrder(d, order) => sets_order(dylibs, *d, order),
        Step::Define(d, offers, first, expected) => defines(dylibs, *d, offers, *first, expected),
        Step::Go(d, gone) => goes(dylibs, *d, gone),
        _ => is_answered(dylibs, step),
    }
}

/// The first step that isn't done, or answered, as it says.
fn first_wrong(alloc: Global, steps: &[Step]) -> Option<usize> {
    let mut dylibs = Dylibs::new(alloc);
    for (k, step) in steps.iter().enumerate() {
        if !is_done(&mut dylibs, step) {
            return Some(k);
        }
    }
    None
}

/// Plays the steps on no dylibs. Each is done, or answered, as it says.
pub(super) fn play(rt: &impl Abort, alloc: Global, steps: &[Step]) {
    assert_eq!(rt; first_wrong(alloc, steps), None);
}
