ghost use Rattle.std.specs.Prelude.{◌≡◌, ◌<◌, ◌≤◌, ℕ, Some, None, true, false, length, MatchOption, vec_len, vec_capacity, Contains};
ghost use Rattle.orc_ids.specs.declared.ids.InstId.{InstId};
ghost use Rattle.dep_groups.specs.Places.{place, is_set};
ghost use Rattle.dep_groups.specs.Shape.{home_in, ready_in};
ghost use Rattle.dep_groups.specs.Search.{IsTrailOf, IsRoomy, IsMore, IsVisit, IsWired, LinksLead, ArePassed, IsExhausted, IsSeen};
ghost use Rattle.dep_groups.specs.Links.{IsFound};
ghost use Rattle.dep_groups.specs.Marks.{members_of};
ghost use Rattle.dep_groups.specs.Seek.{IsOwn, IsOther, AreOwn, IsClear};

use crate::graph::Graph;
use crate::places::{at, is_set, lower};
use crate::slot::Slot;
use crate::trail::{Trail, advance, search};
use orc_ids::InstId;

/// Whether an instance is ready or a member of the group.
fn is_own(graph: &Graph, group: u32, instance: u32) -> bool
    ensures own { result ≡ true → IsOwn graph.now group instance }
    ensures unready { result ≡ false → ready_in graph.now instance ≡ false }
    ensures outside { result ≡ false → home_in graph.now instance ≡ Some group → ⊥ }
{
    if is_set(&graph.ready, instance as usize) {
        return true;
    }
    match at(&graph.homes, instance as usize) {
        Some(home) => home == group,
        None => false,
    }
}

/// The first dependency of a group that is neither ready nor a member of the group.
fn first_other(graph: &Graph, cursors: &mut [usize], group: u32) -> Option<u32>
    requires within { group < length cursors.old }
    requires cursors { ArePassed graph.now cursors.old }
    ensures cursors { ArePassed graph.now cursors.new }
    ensures found { MatchOption result (AreOwn graph.now group) (λ d. IsOther graph.now group d) }
{
    let start = advance(graph, cursors, group);
    let deps = graph.nodes.deps_of(group);
    for k in start..deps.len() {
        if !is_own(graph, group, deps[k]) {
            return Some(deps[k]);
        }
    }
    None
}

/// Whether a group waits for one of the members.
fn is_wanted(heads: &[Slot], members: &[InstId]) -> bool
    ensures { result ≡ false → (m : InstId) → Contains members.now m → place heads.now m.0 ≡ None }
{
    for member in members {
        if at(heads, member.0 as usize).is_some() {
            return true;
        }
    }
    false
}

/// Seeks an instance that the group may wait for, where the trail has come to the group alone: where
/// no group waits for a member of it, any dependency that isn't ready will do, and otherwise one that
/// is not emitted is searched for.
pub(crate) fn seek(
    graph: &Graph,
    links: &[Slot],
    heads: &[Slot],
    cursors: &mut [usize],
    trail: &mut Trail,
    group: u32,
) -> Option<u32>
    requires trail { IsTrailOf graph.now trail.old }
    requires room { IsRoomy trail.old }
    requires wired { IsWired graph.now (length trail.old.seen.items) }
    requires links { LinksLead graph.now links.now }
    requires cursors { ArePassed graph.now cursors.old }
    requires sizes { length cursors.old ≡ length trail.old.seen.items }
    requires members { (i g : ℕ) → home_in graph.now i ≡ Some g → Contains (members_of graph.now.nodes.items g) (record { 0 = i }) }
    requires first { IsVisit trail.old.order.items 0 group }
    requires one { vec_len trail.old.order ≡ 1 }
    ensures trail { IsTrailOf graph.now trail.new }
    ensures more { IsMore trail.old trail.new }
    ensures cursors { ArePassed graph.now cursors.new }
    ensures found { MatchOption result (IsExhausted graph.now trail.new (vec_len trail.new.order)) (λ to. IsFound graph.now heads.now group to) }
{
    if is_wanted(heads, graph.nodes.members_of(group)) {
        return search(graph, links, cursors, trail);
    }
    first_other(graph, cursors, group)
}

/// Takes the flags of all groups back that a search came to.
fn unsee(seen: &mut [bool], order: &[u32])
    requires within { (k g : ℕ) → IsVisit order.now k g → g < length seen.old }
    requires known { (g : ℕ) → is_set seen.old g ≡ true → IsSeen order.now g }
    ensures { (g : ℕ) → is_set seen.new g ≡ false }
{
    for group in order {
        lower(seen, *group as usize);
    }
}

/// Forgets a search.
pub(crate) fn clear(trail: &mut Trail)
    requires marked { (k g : ℕ) → IsVisit trail.old.order.items k g → is_set trail.old.seen.items g ≡ true }
    requires known { (g : ℕ) → is_set trail.old.seen.items g ≡ true → IsSeen trail.old.order.items g }
    requires room { length trail.old.seen.items ≤ vec_capacity trail.old.order }
    ensures clear { IsClear trail.new }
    ensures sizes { length trail.new.seen.items ≡ length trail.old.seen.items }
{
    unsee(&mut trail.seen, &trail.order);
    trail.order.clear();
}
