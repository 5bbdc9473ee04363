ghost use Rattle.std.specs.Prelude.{◌≡◌, ◌<◌, ◌≤◌, ◌+◌, ◌^◌, ℕ, [], Some, IfOk, OnOk, OnErr, length, slice_get, vec_len, vec_capacity};
ghost use Rattle.std.specs.Prelude.{Contains};
ghost use Rattle.orc_ids.specs.declared.ids.InstId.{InstId};
ghost use Rattle.dep_groups.specs.Places.{place};
ghost use Rattle.dep_groups.specs.Shape.{home_in, ready_in};
ghost use Rattle.dep_groups.specs.Core.{IsSound};
ghost use Rattle.dep_groups.specs.Added.{HasRoom};
ghost use Rattle.dep_groups.specs.Adding.{member_count, dep_count, AreBelow};
ghost use Rattle.dep_groups.specs.Hits.{IsResting};
ghost use Rattle.dep_groups.specs.Prepare.{Covers, IsRoomierGraph, IsRoomier, HasPlaces, HasTables, IsAlike};

use crate::add::{grow_flags, grow_places};
use crate::graph::Graph;
use crate::hits::{Hits, grow_hits, reserve_hits};
use crate::nodes::make_room;
use crate::resolve::Core;
use orc_ids::{Group, InstId};
use std::alloc::AllocError;

/// How many places some groups need, and how many members and dependencies they have in all.
#[derive(Drop, Clone, Copy)]
pub(crate) struct Needs {
    pub(crate) places: usize,
    pub(crate) members: usize,
    pub(crate) deps: usize,
}

/// How many places are needed for some instances too.
fn places_for(instances: &[InstId], places: usize) -> usize
    ensures more { places ≤ result }
    ensures covers { (i : InstId) → Contains instances.now i → i.0 < result }
{
    let mut count = places;
    for instance in instances {
        count = count.max(instance.0 as usize + 1);
    }
    count
}

/// The sum of two counts, if it fits.
fn add_up(a: usize, b: usize) -> Result<usize, AllocError>
    ensures { IfOk result (λ n. n ≡ a + b) }
{
    match a.checked_add(b) {
        Some(sum) => Ok(sum),
        None => Err(AllocError),
    }
}

/// What one group more needs.
fn with_group(group: &Group, needs: Needs) -> Result<Needs, AllocError>
    ensures { IfOk result (λ n. Covers group.now needs n) }
{
    let housed = places_for(group.members.as_slice(), needs.places);
    let places = places_for(group.deps.as_slice(), housed);
    let members = add_up(needs.members, group.members.len())?;
    let deps = add_up(needs.deps, group.deps.len())?;
    Ok(Needs {
        places,
        members,
        deps,
    })
}

/// What some groups need, beside so many places.
pub(crate) fn needs_of(groups: &[Group], places: usize) -> Result<Needs, AllocError>
    ensures places { IfOk result (λ n. places ≤ n.places) }
    ensures below { IfOk result (λ n. AreBelow groups.now n.places) }
    ensures members { IfOk result (λ n. n.members ≡ member_count groups.now) }
    ensures deps { IfOk result (λ n. n.deps ≡ dep_count groups.now) }
{
    let mut needs = Needs {
        places,
        members: 0,
        deps: 0,
    };
    for group in groups {
        needs = with_group(group, needs)?;
    }
    Ok(needs)
}

/// Refuses instances that have no place with a number below 2^32 - 1.
fn check_places(places: usize) -> Result<(), AllocError>
    ensures { OnOk result (places < 2 ^ 32) }
{
    if places > u32::MAX as usize {
        return Err(AllocError);
    }
    Ok(())
}

/// Makes the room for groups in what was emitted.
fn reserve_graph(graph: &mut Graph, groups: usize, needs: Needs) -> Result<(), AllocError>
    requires homes { vec_len graph.old.homes ≤ needs.places }
    requires firsts { vec_len graph.old.firsts ≤ needs.places }
    requires ready { vec_len graph.old.ready ≤ needs.places }
    ensures same { IsRoomierGraph graph.old graph.new }
    ensures room { OnOk result (HasPlaces graph.new groups needs) }
{
    make_room(&mut graph.edges, needs.deps)?;
    graph.nodes.reserve(groups, needs.members, needs.deps)?;
    graph.homes.reserve(needs.places - graph.homes.len())?;
    graph.firsts.reserve(needs.places - graph.firsts.len())?;
    graph.ready.reserve(needs.places - graph.ready.len())
}

/// Makes the room for groups in the tables.
fn reserve_tables(core: &mut Core, groups: usize, places: usize) -> Result<(), AllocError>
    requires heads { vec_len core.old.heads ≤ places }
    ensures same { IsRoomier core.old core.new }
    ensures graph { core.new.graph ≡ core.old.graph }
    ensures room { OnOk result (HasTables core.new groups places) }
{
    let visits = add_up(core.trail.seen.len(), groups)?;
    core.links.reserve(groups)?;
    core.nexts.reserve(groups)?;
    core.cursors.reserve(groups)?;
    core.trail.seen.reserve(groups)?;
    core.trail.order.reserve(visits)?;
    core.heads.reserve(places - core.heads.len())?;
    core.told.reserve(places)
}

/// Makes the places for instances.
fn grow(graph: &mut Graph, places: usize)
    requires homes { vec_len graph.old.homes ≤ places }
    requires firsts { vec_len graph.old.firsts ≤ places }
    requires ready { vec_len graph.old.ready ≤ places }
    requires homes_room { places ≤ vec_capacity graph.old.homes }
    requires firsts_room { places ≤ vec_capacity graph.old.firsts }
    requires ready_room { places ≤ vec_capacity graph.old.ready }
    ensures homes { (i : ℕ) → home_in graph.new i ≡ home_in graph.old i }
    ensures flags { (i : ℕ) → ready_in graph.new i ≡ ready_in graph.old i }
    ensures firsts { (i : ℕ) → place graph.new.firsts.items i ≡ place graph.old.firsts.items i }
    ensures nodes { graph.new.nodes ≡ graph.old.nodes }
    ensures edges { graph.new.edges ≡ graph.old.edges }
    ensures sizes { (length graph.new.homes.items ≡ places) × (length graph.new.firsts.items ≡ places) × (length graph.new.ready.items ≡ places) }
{
    grow_places(&mut graph.homes, places);
    grow_places(&mut graph.firsts, places);
    grow_flags(&mut graph.ready, places);
}

/// Makes the room for groups, forgets what was told, and makes the places for their instances.
pub(crate) fn prepare(core: &mut Core, hits: &mut Hits, groups: &[Group]) -> Result<(), AllocError>
    requires sound { IsSound core.old }
    requires firsts { length core.old.graph.firsts.items ≡ length core.old.graph.homes.items }
    requires resting { IsResting hits.old }
    requires covers { length core.old.graph.homes.items ≤ length hits.old.flags.items }
    ensures alike { IsAlike core.old core.new }
    ensures firsts { length core.new.graph.firsts.items ≡ length core.new.graph.homes.items }
    ensures below { OnOk result (AreBelow groups.now (length core.new.graph.homes.items)) }
    ensures room { OnOk result (HasRoom core.new (length groups.now) (member_count groups.now) (dep_count groups.now)) }
    ensures told { OnOk result (core.new.told.items ≡ []) }
    ensures err { OnErr result ((core.new.graph.homes.items ≡ core.old.graph.homes.items) × (core.new.told.items ≡ core.old.told.items)) }
    ensures resting { IsResting hits.new }
    ensures covers { length core.new.graph.homes.items ≤ length hits.new.flags.items }
    ensures hits { hits.new.order.items ≡ hits.old.order.items }
    ensures more { length hits.old.flags.items ≤ length hits.new.flags.items }
    ensures places { OnErr result (length hits.new.flags.items ≡ length hits.old.flags.items) }
{
    let needs = needs_of(groups, core.graph.homes.len())?;
    check_places(needs.places)?;
    reserve_hits(hits, needs.places)?;
    reserve_tables(core, groups.len(), needs.places)?;
    reserve_graph(&mut core.graph, groups.len(), needs)?;
    core.told.clear();
    grow(&mut core.graph, needs.places);
    grow_places(&mut core.heads, needs.places);
    grow_hits(hits, needs.places);
    Ok(())
}
