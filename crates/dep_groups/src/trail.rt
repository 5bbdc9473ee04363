ghost use Rattle.std.specs.Prelude.{◌≡◌, ◌<◌, ◌≤◌, ◌+◌, ◌++◌, ◌∷◌, ℕ, [], Some, None, true, false, ◌==◌, if◌then◌else◌, length, IfSome, MatchOption, vec_len, vec_capacity, slice_get};
ghost use Rattle.dep_groups.specs.Places.{place, is_set};
ghost use Rattle.dep_groups.specs.Shape.{home_in, deps_in, ready_in};
ghost use Rattle.dep_groups.specs.Search.{IsTrailOf, IsRoomy, IsMore, IsVisit, IsMet, IsLooked, IsOpen, IsWired, LinksLead, IsPassed, WasLooked, ArePassed, IsExhausted};

use crate::graph::Graph;
use crate::places::{at, is_set, raise};
use crate::slot::Slot;

/// The groups that a search came to, in order.
#[derive(Drop)]
pub(crate) struct Trail {
    pub(crate) seen: Vec<bool>,
    pub(crate) order: Vec<u32>,
}

/// What a look at an instance showed: that it is ready or its group was seen, that it is not
/// emitted, or a group that is new.
#[derive(Drop, Clone, Copy)]
pub(crate) enum Look {
    Known,
    Open,
    Came,
}

/// Notes that a search came to a group.
pub(crate) fn come_to(trail: &mut Trail, group: u32)
    requires new { is_set trail.old.seen.items group ≡ false }
    requires within { group < length trail.old.seen.items }
    requires room { IsRoomy trail.old }
    ensures order { trail.new.order.items ≡ trail.old.order.items ++ group ∷ [] }
    ensures len { vec_len trail.new.order ≡ vec_len trail.old.order + 1 }
    ensures seen { (n : ℕ) → is_set trail.new.seen.items n ≡ (if group == n then true else is_set trail.old.seen.items n) }
    ensures room { IsRoomy trail.new }
    ensures sizes { (length trail.new.seen.items ≡ length trail.old.seen.items) × (vec_capacity trail.new.order ≡ vec_capacity trail.old.order) }
{
    raise(&mut trail.seen, group as usize);
    trail.order.push_reserved(group);
}

/// The group of a visit.
pub(crate) fn group_at(trail: &Trail, visit: usize) -> u32
    requires { visit < vec_len trail.now.order }
    ensures { IsVisit trail.now.order.items visit result }
{
    trail.order[visit]
}

/// Looks at an instance that the search met, and comes to its group if that is new.
pub(crate) fn look_at(graph: &Graph, trail: &mut Trail, to: u32) -> Look
    requires trail { IsTrailOf graph.now trail.old }
    requires room { IsRoomy trail.old }
    requires wired { IsWired graph.now (length trail.old.seen.items) }
    requires met { IsMet graph.now trail.old.order.items to }
    ensures trail { IsTrailOf graph.now trail.new }
    ensures room { IsRoomy trail.new }
    ensures more { IsMore trail.old trail.new }
    ensures looked { WasLooked graph.now trail.new to result }
    ensures came { result ≡ Look.Came → vec_len trail.new.order ≡ vec_len trail.old.order + 1 }
{
    if is_set(&graph.ready, to as usize) {
        return Look::Known;
    }
    let Some(group) = at(&graph.homes, to as usize) else {
        return Look::Open;
    };
    if is_set(&trail.seen, group as usize) {
        return Look::Known;
    }
    come_to(trail, group);
    Look::Came
}

/// Goes on from the last visit by the links of groups, as long as they lead to new ones; the
/// instance that is not emitted, if they end at one.
fn follow(graph: &Graph, links: &[Slot], trail: &mut Trail) -> Option<u32>
    requires trail { IsTrailOf graph.now trail.old }
    requires room { IsRoomy trail.old }
    requires wired { IsWired graph.now (length trail.old.seen.items) }
    requires links { LinksLead graph.now links.now }
    requires some { 0 < vec_len trail.old.order }
    ensures trail { IsTrailOf graph.now trail.new }
    ensures room { IsRoomy trail.new }
    ensures more { IsMore trail.old trail.new }
    ensures found { IfSome result (λ to. IsOpen graph.now trail.new to) }
{
    loop {
        let to = at(links, group_at(trail, trail.order.len() - 1) as usize)?;
        match look_at(graph, trail, to) {
            Look::Known => return None,
            Look::Open => return Some(to),
            Look::Came => {}
        }
    }
}

/// Looks at an instance that the search met, and goes on from there.
fn follow_to(graph: &Graph, links: &[Slot], trail: &mut Trail, to: u32) -> Option<u32>
    requires trail { IsTrailOf graph.now trail.old }
    requires room { IsRoomy trail.old }
    requires wired { IsWired graph.now (length trail.old.seen.items) }
    requires links { LinksLead graph.now links.now }
    requires met { IsMet graph.now trail.old.order.items to }
    ensures trail { IsTrailOf graph.now trail.new }
    ensures room { IsRoomy trail.new }
    ensures more { IsMore trail.old trail.new }
    ensures found { MatchOption result (IsLooked graph.now trail.new to) (λ d. IsOpen graph.now trail.new d) }
{
    match look_at(graph, trail, to) {
        Look::Known => None,
        Look::Open => Some(to),
        Look::Came => follow(graph, links, trail),
    }
}

/// Looks at the dependencies of a group that the search came to, from one of them on.
fn scan(graph: &Graph, links: &[Slot], trail: &mut Trail, from: usize, start: usize) -> Option<u32>
    requires trail { IsTrailOf graph.now trail.old }
    requires room { IsRoomy trail.old }
    requires wired { IsWired graph.now (length trail.old.seen.items) }
    requires links { LinksLead graph.now links.now }
    requires from { from < vec_len trail.old.order }
    ensures trail { IsTrailOf graph.now trail.new }
    ensures room { IsRoomy trail.new }
    ensures more { IsMore trail.old trail.new }
    ensures found { MatchOption result (IsPassed graph.now trail.new from start) (λ d. IsOpen graph.now trail.new d) }
{
    let deps = graph.nodes.deps_of(group_at(trail, from));
    for k in start..deps.len() {
        let found = follow_to(graph, links, trail, deps[k]);
        if found.is_some() {
            return found;
        }
    }
    None
}

/// Moves the cursor of a group past the dependencies that are ready for good.
pub(crate) fn advance(graph: &Graph, cursors: &mut [usize], group: u32) -> usize
    requires within { group < length cursors.old }
    requires cursors { ArePassed graph.now cursors.old }
    ensures cursors { ArePassed graph.now cursors.new }
    ensures passed { (k d : ℕ) → k < result → slice_get (deps_in graph.now group) k ≡ Some d → ready_in graph.now d ≡ true }
{
    let deps = graph.nodes.deps_of(group);
    let mut start = cursors[group as usize];
    while start < deps.len() && is_set(&graph.ready, deps[start] as usize) {
        start += 1;
    }
    cursors[group as usize] = start;
    start
}

/// Searches on from where a trail stands, until it finds an instance that is not emitted, or has
/// looked at all that the groups it came to depend on.
pub(crate) fn search(
    graph: &Graph,
    links: &[Slot],
    cursors: &mut [usize],
    trail: &mut Trail,
) -> Option<u32>
    requires trail { IsTrailOf graph.now trail.old }
    requires room { IsRoomy trail.old }
    requires wired { IsWired graph.now (length trail.old.seen.items) }
    requires links { LinksLead graph.now links.now }
    requires cursors { ArePassed graph.now cursors.old }
    requires sizes { length cursors.old ≡ length trail.old.seen.items }
    ensures trail { IsTrailOf graph.now trail.new }
    ensures more { IsMore trail.old trail.new }
    ensures cursors { ArePassed graph.now cursors.new }
    ensures found { MatchOption result (IsExhausted graph.now trail.new (vec_len trail.new.order)) (λ d. IsOpen graph.now trail.new d) }
{
    let mut from = 0;
    while from < trail.order.len() {
        let start = advance(graph, cursors, group_at(trail, from));
        let found = scan(graph, links, trail, from, start);
        if found.is_some() {
            return found;
        }
        from += 1;
    }
    None
}
