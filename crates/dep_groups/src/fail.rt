ghost use Rattle.std.specs.Prelude.{◌≡◌, ◌<◌, ◌≤◌, ◌⊎◌, ℕ, Some, None, true, false, length, Contains, vec_capacity};
ghost use Rattle.orc_ids.specs.declared.ids.InstId.{InstId};
ghost use Rattle.dep_groups.specs.Places.{place, is_set};
ghost use Rattle.dep_groups.specs.Shape.{home_in, ready_in, entries_of};
ghost use Rattle.dep_groups.specs.Search.{IsMore};
ghost use Rattle.dep_groups.specs.Seek.{IsClear};
ghost use Rattle.dep_groups.specs.Wake.{IsListed};
ghost use Rattle.dep_groups.specs.Kept.{entries_in};
ghost use Rattle.dep_groups.specs.Frontier.{IsReady, AreHits, AreFailed};
ghost use Rattle.dep_groups.specs.Hits.{IsResting, IsWhole, IsComplete, IsNoted, IsMoreHit, IsStruck, IsSwept, IsSpread};

use crate::graph::Graph;
use crate::hits::{Hits, hit_roots, lower_all};
use crate::marks::mark_members;
use crate::places::{at, empty, is_set};
use crate::resolve::Core;
use crate::seek::clear;
use crate::slot::Slot;
use crate::trail::{Trail, come_to};
use orc_ids::InstId;

/// Comes to a group, and hits the members that are at home there, if it wasn't come to.
fn hit_group(graph: &Graph, trail: &mut Trail, hits: &mut Hits, group: u32)
    requires within { group < length trail.old.seen.items }
    requires covers { length graph.now.homes.items ≤ length hits.old.flags.items }
    requires complete { IsComplete graph.now }
    requires struck { IsStruck graph.now hits.old group }
    requires noted { IsNoted hits.old }
    requires swept { IsSwept graph.now trail.old hits.old }
    ensures noted { IsNoted hits.new }
    ensures swept { IsSwept graph.now trail.new hits.new }
    ensures hits { IsMoreHit (entries_of graph.now) hits.old hits.new }
    ensures more { IsMore trail.old trail.new }
    ensures seen { is_set trail.new.seen.items group ≡ true }
{
    if !is_set(&trail.seen, group as usize) {
        come_to(trail, group);
        let members = graph.nodes.members_of(group);
        mark_members(
            &graph.homes,
            &mut hits.flags,
            &mut hits.order,
            group,
            members,
        );
    }
}

/// Hits what depends on an instance.
fn hit_dependants(graph: &Graph, trail: &mut Trail, hits: &mut Hits, instance: u32)
    requires groups { length trail.old.seen.items ≡ length graph.now.nodes.items }
    requires covers { length graph.now.homes.items ≤ length hits.old.flags.items }
    requires complete { IsComplete graph.now }
    requires hit { is_set hits.old.flags.items instance ≡ true }
    requires noted { IsNoted hits.old }
    requires swept { IsSwept graph.now trail.old hits.old }
    ensures noted { IsNoted hits.new }
    ensures swept { IsSwept graph.now trail.new hits.new }
    ensures hits { IsMoreHit (entries_of graph.now) hits.old hits.new }
    ensures more { IsMore trail.old trail.new }
    ensures seen { (g : ℕ) → IsListed graph.now.edges.items (place graph.now.firsts.items instance) g → is_set trail.new.seen.items g ≡ true }
{
    let mut next = at(&graph.firsts, instance as usize);
    while let Some(mention) = next {
        hit_group(graph, trail, hits, graph.edges[mention as usize].group);
        next = graph.edges[mention as usize].next.get();
    }
}

/// Hits what reaches one of the instances that are hit.
fn hit_all(graph: &Graph, trail: &mut Trail, hits: &mut Hits)
    requires groups { length trail.old.seen.items ≡ length graph.now.nodes.items }
    requires covers { length graph.now.homes.items ≤ length hits.old.flags.items }
    requires complete { IsComplete graph.now }
    requires noted { IsNoted hits.old }
    requires swept { IsSwept graph.now trail.old hits.old }
    ensures noted { IsNoted hits.new }
    ensures swept { IsSwept graph.now trail.new hits.new }
    ensures hits { IsMoreHit (entries_of graph.now) hits.old hits.new }
    ensures more { IsMore trail.old trail.new }
    ensures spread { IsSpread graph.now trail.new hits.new (length hits.new.order.items) }
{
    let mut done = 0;
    while done < hits.order.len() {
        let instance = hits.order[done];
        hit_dependants(graph, trail, hits, instance.0);
        done += 1;
    }
}

/// Finds out what a failure hits.
fn find_hits(graph: &Graph, trail: &mut Trail, hits: &mut Hits, roots: &[InstId])
    requires groups { length trail.old.seen.items ≡ length graph.now.nodes.items }
    requires covers { length graph.now.homes.items ≤ length hits.old.flags.items }
    requires complete { IsComplete graph.now }
    requires clear { IsClear trail.old }
    requires resting { IsResting hits.old }
    requires within { (m : InstId) → Contains roots.now m → m.0 < length hits.old.flags.items }
    requires unready { (m : InstId) → Contains roots.now m → IsReady (entries_of graph.now) m.0 → ⊥ }
    ensures clear { IsClear trail.new }
    ensures groups { length trail.new.seen.items ≡ length trail.old.seen.items }
    ensures noted { IsNoted hits.new }
    ensures hits { AreHits (entries_of graph.now) roots.now hits.new.order.items }
    ensures places { length hits.new.flags.items ≡ length hits.old.flags.items }
    ensures capacity { vec_capacity hits.new.order ≡ vec_capacity hits.old.order }
{
    hits.order.clear();
    hit_roots(hits, roots);
    hit_all(graph, trail, hits);
    clear(trail);
}

/// Takes instances out of their groups.
fn take_out(homes: &mut [Slot], instances: &[InstId])
    ensures out { (m : InstId) → Contains instances.now m → place homes.new m.0 ≡ None }
    ensures others { (i : ℕ) → (place homes.new i ≡ place homes.old i) ⊎ (Contains instances.now (record { 0 = i }) × (place homes.new i ≡ None)) }
{
    for instance in instances {
        empty(homes, instance.0 as usize);
    }
}

/// Finds out what the failure of some instances hits, and takes it out of its groups.
pub(crate) fn fail_all(core: &mut Core, hits: &mut Hits, roots: &[InstId])
    requires whole { IsWhole core.old hits.old }
    requires within { (m : InstId) → Contains roots.now m → m.0 < length hits.old.flags.items }
    requires unready { (m : InstId) → Contains roots.now m → IsReady (entries_in core.old) m.0 → ⊥ }
    ensures whole { IsWhole core.new hits.new }
    ensures hits { AreHits (entries_in core.old) roots.now hits.new.order.items }
    ensures failed { AreFailed (entries_in core.old) (entries_in core.new) roots.now }
    ensures told { core.new.told ≡ core.old.told }
    ensures places { length hits.new.flags.items ≡ length hits.old.flags.items }
{
    find_hits(&core.graph, &mut core.trail, hits, roots);
    take_out(&mut core.graph.homes, &hits.order);
    lower_all(&mut hits.flags, &hits.order);
}
