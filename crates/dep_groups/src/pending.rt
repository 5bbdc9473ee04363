ghost use Rattle.std.specs.Prelude.{◌≡◌, ◌<◌, ◌⊎◌, ℕ, Some, true, false, length, vec_len, Contains};
ghost use Rattle.dep_groups.specs.Places.{is_set};
ghost use Rattle.dep_groups.specs.Shape.{home_in, entries_of};
ghost use Rattle.dep_groups.specs.Search.{IsTrailOf, IsRoomy, IsMore, IsNamed, IsWired};
ghost use Rattle.dep_groups.specs.Seek.{IsClear};
ghost use Rattle.dep_groups.specs.Core.{AreClosed};
ghost use Rattle.dep_groups.specs.Kept.{entries_in};
ghost use Rattle.dep_groups.specs.Frontier.{IsPendingCount};
ghost use Rattle.dep_groups.specs.Hits.{IsWhole};
ghost use Rattle.dep_groups.specs.Pending.{AreCounted, AreNoted, IsCovered, IsCoveredFrom, AreWithin};

use crate::graph::Graph;
use crate::hits::Hits;
use crate::places::{at, is_set, lower, raise};
use crate::resolve::Core;
use crate::seek::clear;
use crate::trail::{Look, Trail, come_to, group_at, look_at};
use orc_ids::InstId;

/// Flags an instance, if it isn't flagged yet; how many are.
fn flag_one(flags: &mut [bool], instance: u32, count: usize) -> usize
    requires within { instance < length flags.old }
    requires counted { AreCounted flags.old count }
    ensures counted { AreCounted flags.new result }
    ensures flagged { is_set flags.new instance ≡ true }
    ensures stays { (i : ℕ) → is_set flags.old i ≡ true → is_set flags.new i ≡ true }
    ensures only { (i : ℕ) → is_set flags.new i ≡ true → (is_set flags.old i ≡ true) ⊎ (instance ≡ i) }
{
    if is_set(flags, instance as usize) {
        return count;
    }
    raise(flags, instance as usize);
    count + 1
}

/// Looks at a dependency of a group that was come to: flags it where it isn't emitted, and else
/// comes to its group, if that is new.
fn note_one(
    graph: &Graph,
    trail: &mut Trail,
    flags: &mut [bool],
    from: usize,
    to: u32,
    count: usize,
) -> usize
    requires trail { IsTrailOf graph.now trail.old }
    requires room { IsRoomy trail.old }
    requires wired { IsWired graph.now (length trail.old.seen.items) }
    requires named { IsNamed graph.now trail.old from to }
    requires within { AreWithin graph.now flags.old }
    requires counted { AreCounted flags.old count }
    requires noted { AreNoted graph.now trail.old flags.old }
    ensures trail { IsTrailOf graph.now trail.new }
    ensures room { IsRoomy trail.new }
    ensures more { IsMore trail.old trail.new }
    ensures counted { AreCounted flags.new result }
    ensures noted { AreNoted graph.now trail.new flags.new }
    ensures stays { (i : ℕ) → is_set flags.old i ≡ true → is_set flags.new i ≡ true }
    ensures covered { IsCovered graph.now trail.new flags.new to }
{
    match look_at(graph, trail, to) {
        Look::Known => count,
        Look::Open => flag_one(flags, to, count),
        Look::Came => count,
    }
}

/// Looks at all dependencies of a group that was come to.
fn note_each(
    graph: &Graph,
    trail: &mut Trail,
    flags: &mut [bool],
    from: usize,
    before: usize,
) -> usize
    requires trail { IsTrailOf graph.now trail.old }
    requires room { IsRoomy trail.old }
    requires wired { IsWired graph.now (length trail.old.seen.items) }
    requires from { from < vec_len trail.old.order }
    requires within { AreWithin graph.now flags.old }
    requires counted { AreCounted flags.old before }
    requires noted { AreNoted graph.now trail.old flags.old }
    ensures trail { IsTrailOf graph.now trail.new }
    ensures room { IsRoomy trail.new }
    ensures more { IsMore trail.old trail.new }
    ensures counted { AreCounted flags.new result }
    ensures noted { AreNoted graph.now trail.new flags.new }
    ensures stays { (i : ℕ) → is_set flags.old i ≡ true → is_set flags.new i ≡ true }
    ensures covered { IsCoveredFrom graph.now trail.new flags.new from }
{
    let deps = graph.nodes.deps_of(group_at(trail, from));
    let mut count = before;
    for k in 0..deps.len() {
        count = note_one(graph, trail, flags, from, deps[k], count);
    }
    count
}

/// Looks at all that is reached from where a trail begins; how much of it isn't emitted.
fn note_all(graph: &Graph, trail: &mut Trail, flags: &mut [bool]) -> usize
    requires trail { IsTrailOf graph.now trail.old }
    requires room { IsRoomy trail.old }
    requires wired { IsWired graph.now (length trail.old.seen.items) }
    requires within { AreWithin graph.now flags.old }
    requires counted { AreCounted flags.old 0 }
    requires noted { AreNoted graph.now trail.old flags.old }
    ensures trail { IsTrailOf graph.now trail.new }
    ensures more { IsMore trail.old trail.new }
    ensures counted { AreCounted flags.new result }
    ensures noted { AreNoted graph.now trail.new flags.new }
    ensures covered { (k : ℕ) → k < vec_len trail.new.order → IsCoveredFrom graph.now trail.new flags.new k }
{
    let mut count = 0;
    let mut from = 0;
    while from < trail.order.len() {
        count = note_each(graph, trail, flags, from, count);
        from += 1;
    }
    count
}

/// Takes the flags of instances back.
fn lower_each(flags: &mut [bool], instances: &[u32])
    requires within { (d : ℕ) → Contains instances.now d → d < length flags.old }
    ensures { (i : ℕ) → is_set flags.new i ≡ true → (is_set flags.old i ≡ true) × (Contains instances.now i → ⊥) }
{
    for instance in instances {
        lower(flags, *instance as usize);
    }
}

/// Takes all flags back that were set from a trail.
fn lower_noted(graph: &Graph, trail: &Trail, flags: &mut [bool])
    requires within { AreWithin graph.now flags.old }
    requires noted { AreNoted graph.now trail.now flags.old }
    ensures { (i : ℕ) → is_set flags.new i ≡ false }
{
    for k in 0..trail.order.len() {
        lower_each(flags, graph.nodes.deps_of(group_at(trail, k)));
    }
}

/// Counts what the members of a group reach and isn't emitted.
fn count_from(graph: &Graph, trail: &mut Trail, flags: &mut [bool], group: u32) -> usize
    requires clear { IsClear trail.old }
    requires group { group < length trail.old.seen.items }
    requires wired { IsWired graph.now (length trail.old.seen.items) }
    requires within { AreWithin graph.now flags.old }
    requires closed { AreClosed graph.now }
    requires unflagged { (i : ℕ) → is_set flags.old i ≡ false }
    ensures clear { IsClear trail.new }
    ensures groups { length trail.new.seen.items ≡ length trail.old.seen.items }
    ensures unflagged { (i : ℕ) → is_set flags.new i ≡ false }
    ensures counted { (i : ℕ) → home_in graph.now i ≡ Some group → IsPendingCount (entries_of graph.now) i result }
{
    come_to(trail, group);
    let count = note_all(graph, trail, flags);
    lower_noted(graph, trail, flags);
    clear(trail);
    count
}

/// Counts what an instance reaches and isn't emitted.
pub(crate) fn count_pending(core: &mut Core, hits: &mut Hits, instance: InstId) -> usize
    requires whole { IsWhole core.old hits.old }
    ensures whole { IsWhole core.new hits.new }
    ensures counted { IsPendingCount (entries_in core.old) instance.0 result }
    ensures entries { entries_in core.new ≡ entries_in core.old }
    ensures told { core.new.told.items ≡ core.old.told.items }
    ensures hits { hits.new.order.items ≡ hits.old.order.items }
    ensures places { length hits.new.flags.items ≡ length hits.old.flags.items }
{
    match at(&core.graph.homes, instance.0 as usize) {
        Some(group) => count_from(&core.graph, &mut core.trail, &mut hits.flags, group),
        None => 1,
    }
}
