ghost use Rattle.std.specs.Prelude.{◌≡◌, ◌<◌, ◌≤◌, ◌+◌, ◌⊎◌, ℕ, Some, true, false, length, vec_len, vec_capacity, Contains};
ghost use Rattle.orc_ids.specs.declared.ids.InstId.{InstId};
ghost use Rattle.dep_groups.specs.Places.{place, is_set, unset};
ghost use Rattle.dep_groups.specs.Marks.{Tells, AreOf, AreMarked, IsOfTrail};

use crate::nodes::Nodes;
use crate::places::{at, is_set, raise};
use crate::slot::Slot;
use crate::trail::Trail;
use orc_ids::InstId;

/// Whether an instance is of a group, and isn't marked.
fn is_open(homes: &[Slot], ready: &[bool], group: u32, member: InstId) -> bool
    ensures open { result ≡ true → (place homes.now member.0 ≡ Some group) × (is_set ready.now member.0 ≡ false) }
    ensures other { result ≡ false → place homes.now member.0 ≡ Some group → is_set ready.now member.0 ≡ true }
{
    match at(homes, member.0 as usize) {
        Some(home) => home == group && !is_set(ready, member.0 as usize),
        None => false,
    }
}

/// Marks an instance of a group and tells it, if it wasn't marked.
fn mark_member(
    homes: &[Slot],
    marks: &mut [bool],
    told: &mut Vec<InstId>,
    group: u32,
    member: InstId,
)
    requires sizes { length homes.now ≤ length marks.old }
    requires room { vec_len told.old + unset marks.old ≤ vec_capacity told.old }
    ensures room { vec_len told.new + unset marks.new ≤ vec_capacity told.new }
    ensures capacity { vec_capacity told.new ≡ vec_capacity told.old }
    ensures tells { Tells marks.old marks.new told.old.items told.new.items }
    ensures marked { place homes.now member.0 ≡ Some group → is_set marks.new member.0 ≡ true }
    ensures only { AreOf homes.now marks.old marks.new group }
{
    if is_open(homes, marks, group, member) {
        raise(marks, member.0 as usize);
        told.push_reserved(member);
    }
}

/// Marks the instances of a group and tells those that weren't marked.
pub(crate) fn mark_members(
    homes: &[Slot],
    marks: &mut [bool],
    told: &mut Vec<InstId>,
    group: u32,
    members: &[InstId],
)
    requires sizes { length homes.now ≤ length marks.old }
    requires room { vec_len told.old + unset marks.old ≤ vec_capacity told.old }
    ensures room { vec_len told.new + unset marks.new ≤ vec_capacity told.new }
    ensures capacity { vec_capacity told.new ≡ vec_capacity told.old }
    ensures tells { Tells marks.old marks.new told.old.items told.new.items }
    ensures marked { (m : InstId) → Contains members.now m → place homes.now m.0 ≡ Some group → is_set marks.new m.0 ≡ true }
    ensures only { AreOf homes.now marks.old marks.new group }
{
    for member in members {
        mark_member(homes, marks, told, group, *member);
    }
}

/// Marks all instances of the groups that a search came to as ready and tells those that weren't.
pub(crate) fn mark_all(
    homes: &[Slot],
    nodes: &Nodes,
    ready: &mut [bool],
    told: &mut Vec<InstId>,
    trail: &Trail,
)
    requires sizes { length ready.old ≡ length homes.now }
    requires room { vec_len told.old + unset ready.old ≤ vec_capacity told.old }
    ensures room { vec_len told.new + unset ready.new ≤ vec_capacity told.new }
    ensures capacity { vec_capacity told.new ≡ vec_capacity told.old }
    ensures tells { Tells ready.old ready.new told.old.items told.new.items }
    ensures marked { AreMarked homes.now nodes.now.items ready.new trail.now.order.items }
    ensures only { (i : ℕ) → is_set ready.new i ≡ true → (is_set ready.old i ≡ true) ⊎ IsOfTrail homes.now trail.now.order.items i }
{
    for group in trail.order.iter() {
        let members = nodes.members_of(*group);
        mark_members(homes, ready, told, *group, members);
    }
}
