//! The dependencies that a unit's groups give to its instances.

ghost use Rattle.std.specs.List.{list_any};
ghost use Rattle.std.specs.Prelude.{◌≡◌, ◌<◌, ◌+◌, ◌==◌, ℕ, length, slice_get, Some, None, IfOk, OnOk};
ghost use Rattle.orc_ids.specs.declared.ids.InstId.{InstId};
ghost use Rattle.session_model.specs.Lists.{only_if, or_else};
ghost use Rattle.instances.specs.Groups.{group_deps, IsFilled, HasDeps};

use orc_ids::{Group, InstId, Items};
use session_model::DepList;
use std::alloc::{AllocError, Global};

/// For each of a unit's instances the dependencies of its group, once they are known.
pub type DepsTable = Vec<Option<DepList>>;

/// What an emission gives to the instances of a unit, which stand from the first one on.
#[derive(Drop)]
pub struct Prepared {
    pub(crate) first: u32,
    pub(crate) deps: DepsTable,
}

fn empty_table(alloc: Global, count: u32) -> Result<DepsTable, AllocError>
    ensures count { IfOk result (λ table. length table.items ≡ count) }
    ensures empty { IfOk result (λ table. (j : ℕ) → j < count → slice_get table.items j ≡ Some None) }
{
    let mut table = Vec::new(alloc);
    for _ in 0..count {
        table.push(None)?;
    }
    Ok(table)
}

fn put_deps(place: &mut Option<DepList>, deps: &DepList) -> Result<(), AllocError>
    ensures { OnOk result (place.new ≡ or_else place.old (Some deps.now)) }
{
    if place.is_none() {
        *place = Some(deps.share()?);
    }
    Ok(())
}

/// The member has these dependencies, unless a group before had it.
fn put_member(
    table: &mut DepsTable,
    first: u32,
    member: InstId,
    deps: &DepList,
) -> Result<(), AllocError>
    ensures { OnOk result (IsFilled (λ j. only_if (member.0 == first + j) deps.now) table.old.items table.new.items) }
{
    if member.0 >= first {
        let at = (member.0 - first) as usize;
        if at < table.as_slice().len() {
            put_deps(&mut table[at], deps)?;
        }
    }
    Ok(())
}

/// The group's dependencies, in one list for all its members.
fn shared_deps(alloc: Global, group: &Group) -> Result<DepList, AllocError>
    ensures { IfOk result (λ deps. deps ≡ group.now.deps) }
{
    let deps = group.deps.as_slice().to_vec(alloc)?;
    DepList::from_items(alloc, Items::from_vec(deps))
}

/// These members have these dependencies, unless a group before had them.
fn put_members(
    table: &mut DepsTable,
    first: u32,
    members: &[InstId],
    deps: &DepList,
) -> Result<(), AllocError>
    ensures { OnOk result (IsFilled (λ j. only_if (list_any (λ (m : InstId). m.0 == first + j) members.now) deps.now) table.old.items table.new.items) }
{
    for member in members {
        put_member(table, first, *member, deps)?;
    }
    Ok(())
}

/// The members of a group have its dependencies, unless a group before had them.
fn put_group(
    alloc: Global,
    table: &mut DepsTable,
    first: u32,
    group: &Group,
) -> Result<(), AllocError>
    ensures { OnOk result (IsFilled (λ j. group_deps (first + j) group.now) table.old.items table.new.items) }
{
    let deps = shared_deps(alloc, group)?;
    put_members(table, first, group.members.as_slice(), &deps)
}

/// The dependencies of the unit's instances, which stand from `first` on. It goes over the groups
/// once.
pub fn deps_table(
    alloc: Global,
    groups: &[Group],
    first: u32,
    count: u32,
) -> Result<DepsTable, AllocError>
    ensures { IfOk result (λ table. HasDeps groups.now first count table.items) }
{
    let mut table = empty_table(alloc, count)?;
    for group in groups {
        put_group(alloc, &mut table, first, group)?;
    }
    Ok(table)
}
