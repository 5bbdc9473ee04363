//! What is asked of a unit, and what it answers.

ghost use Rattle.std.specs.Prelude.{◌≡◌, count_by};

use orc_ids::{Bytes, DylibId, Group, Groups, InstId, NameId, Shape, UnitName, Wanted};
use session_model::UnitKind;
use session_units::{ObjectUnit, finish};
use std::alloc::Global;

/// What an emit at the start of code memory is given: which names are live, what each external is bound to, and
/// the instances of the live names.
#[derive(Clone, Copy)]
pub(super) struct Emit<'a> {
    pub(super) live: &'a [bool],
    pub(super) bound: &'a [Option<(InstId, u64)>],
    pub(super) own: &'a [InstId],
}

/// A question to a unit, with its answer.
#[derive(Drop)]
pub(super) enum Row<'a> {
    /// It offers so many names.
    Count(u32),
    /// So does another handle to it.
    SharedCount(u32),
    /// Another handle to it has this name in a journal.
    SharedName(UnitName),
    /// The first name that it offers is this one, and exported.
    Exports(NameId),
    /// It looks its target up in this dylib.
    Source(Option<DylibId>),
    /// With these names live it needs this memory.
    Shape(&'a [bool], Shape),
    /// At this base, the first name that it offers has this address.
    Address(u64, u64),
    /// With these names live it looks these up.
    Externals(&'a [bool], &'a [Wanted]),
    /// With these names live it needs no other unit, or does.
    Alone(&'a [bool], bool),
    /// An emit is not refused.
    Emits(Emit<'a>),
    /// An emit hands in these groups, of which each has members and dependences.
    Groups(Emit<'a>, &'a [(&'a [InstId], &'a [InstId])]),
    /// An emit hands in so many bytes, of which these are at this place.
    Bytes(Emit<'a>, usize, usize, &'a [u8]),
}

/// How many names are live.
fn live_count(live: &[bool]) -> usize
    ensures { result ≡ count_by (λ b. b) live.now }
{
    let mut count: usize = 0;
    for flag in live {
        if *flag {
            count += 1;
        }
    }
    count
}

/// What an emit hands in, where it is given as much as the unit has and is not refused.
fn handed_in(alloc: Global, unit: &ObjectUnit, emit: Emit<'_>) -> Option<(Groups, Bytes)> {
    let Emit { live, bound, own } = emit;
    if unit.count() as usize != live.len() || live_count(live) != own.len() {
        return None;
    }
    if unit.externals(alloc, live).ok()?.len() != bound.len() {
        return None;
    }
    finish(alloc, unit, live, 0x1000_0000, bound, own).ok()
}

/// The group has these members and dependences.
fn is_group(group: Option<&Group>, (members, deps): (&[InstId], &[InstId])) -> bool {
    match group {
        Some(group) => group.members.as_slice() == members && group.deps.as_slice() == deps,
        None => false,
    }
}

/// The groups have these members and dependences.
fn are_groups(found: &[Group], groups: &[(&[InstId], &[InstId])]) -> bool {
    for (k, group) in groups.iter().enumerate() {
        if !is_group(found.get(k), *group) {
            return false;
        }
    }
    found.len() == groups.len()
}

/// An emit hands these groups in.
fn hands_in_groups(
    alloc: Global,
    unit: &ObjectUnit,
    emit: Emit<'_>,
    groups: &[(&[InstId], &[InstId])],
) -> bool {
    match handed_in(alloc, unit, emit) {
        Some((found, _)) => are_groups(found.as_slice(), groups),
        None => false,
    }
}

/// An emit hands so many bytes in, and these at this place.
fn hands_in_bytes(
    alloc: Global,
    unit: &ObjectUnit,
    emit: Emit<'_>,
    size: usize,
    at: usize,
    bytes: &[u8],
) -> bool {
    match handed_in(alloc, unit, emit) {
        Some((_, image)) => image.len() == size && has_at(image.as_slice(), at, bytes),
        None => false,
    }
}

/// These bytes stand at this place.
fn has_at(image: &[u8], at: usize, bytes: &[u8]) -> bool {
    match image.get(at..) {
        Some(rest) => rest.starts_with(bytes),
        None => false,
    }
}

/// The memory that a unit needs, where there is a flag for each of its names.
fn shape_of<U: UnitKind>(unit: &U, live: &[bool]) -> Option<Shape> {
    if unit.count() as usize != live.len() {
        return None;
    }
    unit.shape(live)
}

/// The address of the first name.
fn address_of<U: UnitKind>(unit: &U, base: u64) -> Option<u64> {
    if unit.count() == 0 {
        return None;
    }
    Some(unit.address(0, base))
}

/// The first name is this one, and exported.
fn exports<U: UnitKind>(unit: &U, name: NameId) -> bool {
    if unit.count() == 0 {
        return false;
    }
    let (first, flags) = unit.offer(0);
    first == name && flags.exported
}

/// These names are looked up.
fn looks_up<U: UnitKind>(alloc: Global, unit: &U, live: &[bool], wanted: &[Wanted]) -> bool {
    if unit.count() as usize != live.len() {
        return false;
    }
    match unit.externals(alloc, live) {
        Ok(externals) => externals.as_slice() == wanted,
        Err(_) => false,
    }
}

/// How many names another handle to the unit offers.
fn shared_count<U: UnitKind>(alloc: Global, unit: &U) -> Option<u32> {
    Some(unit.share(alloc).ok()?.count())
}

/// What a journal calls another handle to it.
fn shared_name<U: UnitKind>(alloc: Global, unit: &U) -> Option<UnitName> {
    Some(unit.share(alloc).ok()?.name())
}

/// The answer is the row's.
fn is_answered(alloc: Global, unit: &ObjectUnit, row: &Row<'_>) -> bool {
    match row {
        Row::Count(count) => unit.count() == *count,
        Row::SharedCount(count) => shared_count(alloc, unit) == Some(*count),
        Row::SharedName(name) => shared_name(alloc, unit) == Some(*name),
        Row::Exports(name) => exports(unit, *name),
        Row::Source(source) => unit.source() == *source,
        Row::Shape(live, shape) => shape_of(unit, live) == Some(*shape),
        Row::Address(base, address) => address_of(unit, *base) == Some(*address),
        Row::Externals(live, wanted) => looks_up(alloc, unit, live, wanted),
        Row::Alone(live, alone) => unit.stands_alone(alloc, live).ok() == Some(*alone),
        Row::Emits(emit) => handed_in(alloc, unit, *emit).is_some(),
        Row::Groups(emit, groups) => hands_in_groups(alloc, unit, *emit, groups),
        Row::Bytes(emit, size, at, bytes) => hands_in_bytes(alloc, unit, *emit, *size, *at, bytes),
    }
}

/// The number of the first row that the unit answers otherwise, if there is one.
pub(super) fn first_wrong(alloc: Global, unit: ObjectUnit, rows: &[Row<'_>]) -> Option<usize> {
    for (number, row) in rows.iter().enumerate() {
        if !is_answered(alloc, &unit, row) {
            return Some(number);
        }
    }
    None
}
