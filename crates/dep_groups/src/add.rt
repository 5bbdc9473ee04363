ghost use Rattle.std.specs.Prelude.{◌≡◌, ◌<◌, ◌≤◌, ◌+◌, ◌-◌, ◌^◌, ◌++◌, ◌∷◌, ◌⊎◌, ℕ, [], Some, None, true, false, length, slice_get, vec_len, vec_capacity, Contains};
ghost use Rattle.orc_ids.specs.declared.ids.InstId.{InstId};
ghost use Rattle.dep_groups.specs.Places.{place, is_set};
ghost use Rattle.dep_groups.specs.Frontier.{AreApart};
ghost use Rattle.dep_groups.specs.Nodes.{node_of, spare, IsEnough};
ghost use Rattle.dep_groups.specs.Wake.{IsListed, IsIndexed, AreHeld, AreUnlinked};
ghost use Rattle.dep_groups.specs.Add.{ListsFall, StaysOrMoves, ListsOnly};
ghost use Rattle.dep_groups.specs.Core.{IsSound};
ghost use Rattle.dep_groups.specs.Added.{IsHoused, IsAdded, HasRoom, AreFresh};
ghost use Rattle.dep_groups.specs.Adding.{member_count, dep_count, AreBelow, AreNew, AreAdded};

use crate::graph::{Edge, Graph};
use crate::places::{put, slot_at};
use crate::resolve::Core;
use crate::slot::Slot;
use orc_ids::{Group, InstId};

/// Adds empty places to a table, up to a number of them.
pub(crate) fn grow_places(places: &mut Vec<Slot>, count: usize)
    requires count { vec_len places.old ≤ count }
    requires room { count ≤ vec_capacity places.old }
    ensures same { (k : ℕ) → place places.new.items k ≡ place places.old.items k }
    ensures len { vec_len places.new ≡ count }
{
    while places.len() < count {
        places.push_reserved(Slot::none());
    }
}

/// Adds flags that are not set to a table, up to a number of them.
pub(crate) fn grow_flags(flags: &mut Vec<bool>, count: usize)
    requires count { vec_len flags.old ≤ count }
    requires room { count ≤ vec_capacity flags.old }
    ensures same { (k : ℕ) → is_set flags.new.items k ≡ is_set flags.old.items k }
    ensures len { vec_len flags.new ≡ count }
{
    while flags.len() < count {
        flags.push_reserved(false);
    }
}

/// Puts the members of a group into its place.
pub(crate) fn house(homes: &mut [Slot], members: &[InstId], group: u32)
    requires within { (m : InstId) → Contains members.now m → m.0 < length homes.old }
    requires few { group < 2 ^ 32 - 1 }
    ensures members { (m : InstId) → Contains members.now m → place homes.new m.0 ≡ Some group }
    ensures others { (i : ℕ) → StaysOrMoves homes.old homes.new members.now group i }
{
    for member in members {
        put(homes, member.0 as usize, group);
    }
}

/// Lists a group with one instance that it depends on.
fn list_one(firsts: &mut [Slot], edges: &mut Vec<Edge>, instance: u32, group: u32)
    requires within { instance < length firsts.old }
    requires few { vec_len edges.old < 2 ^ 32 - 1 }
    requires room { vec_len edges.old < vec_capacity edges.old }
    requires falls { ListsFall firsts.old edges.old.items (group + 1) }
    ensures falls { ListsFall firsts.new edges.new.items (group + 1) }
    ensures listed { IsListed edges.new.items (place firsts.new instance) group }
    ensures kept { (d g : ℕ) → IsListed edges.old.items (place firsts.old d) g → IsListed edges.new.items (place firsts.new d) g }
    ensures only { ListsOnly firsts.old edges.old.items firsts.new edges.new.items (λ d. d ≡ instance) group }
    ensures len { vec_len edges.new ≡ vec_len edges.old + 1 }
    ensures capacity { vec_capacity edges.new ≡ vec_capacity edges.old }
{
    let next = slot_at(firsts, instance as usize);
    put(firsts, instance as usize, edges.len() as u32);
    edges.push_reserved(Edge { group, next });
}

/// Lists a group with all that it depends on.
pub(crate) fn list_all(firsts: &mut [Slot], edges: &mut Vec<Edge>, deps: &[u32], group: u32)
    requires within { (d : ℕ) → Contains deps.now d → d < length firsts.old }
    requires room { length deps.now ≤ spare (vec_capacity edges.old) (vec_len edges.old) }
    requires falls { ListsFall firsts.old edges.old.items (group + 1) }
    ensures falls { ListsFall firsts.new edges.new.items (group + 1) }
    ensures listed { (d : ℕ) → Contains deps.now d → IsListed edges.new.items (place firsts.new d) group }
    ensures kept { (d g : ℕ) → IsListed edges.old.items (place firsts.old d) g → IsListed edges.new.items (place firsts.new d) g }
    ensures only { ListsOnly firsts.old edges.old.items firsts.new edges.new.items (λ d. Contains deps.now d) group }
    ensures len { vec_len edges.new ≡ vec_len edges.old + length deps.now }
    ensures capacity { vec_capacity edges.new ≡ vec_capacity edges.old }
{
    for instance in deps {
        list_one(firsts, edges, *instance, group);
    }
}

/// Adds a group to what was emitted.
fn add_group(graph: &mut Graph, group: &Group)
    requires members { (m : InstId) → Contains group.now.members m → m.0 < length graph.old.homes.items }
    requires deps { (d : InstId) → Contains group.now.deps d → d.0 < length graph.old.firsts.items }
    requires edges { length group.now.deps ≤ spare (vec_capacity graph.old.edges) (vec_len graph.old.edges) }
    requires nodes { IsEnough graph.old.nodes.room 1 (length group.now.members) (length group.now.deps) }
    requires indexed { IsIndexed graph.old }
    ensures indexed { IsIndexed graph.new }
    ensures housed { IsHoused graph.old graph.new group.now.members (length graph.old.nodes.items) }
    ensures nodes { graph.new.nodes.items ≡ graph.old.nodes.items ++ node_of group.now ∷ [] }
    ensures few { length graph.new.nodes.items < 2 ^ 32 }
    ensures ready { graph.new.ready ≡ graph.old.ready }
    ensures sizes { (length graph.new.homes.items ≡ length graph.old.homes.items) × (length graph.new.firsts.items ≡ length graph.old.firsts.items) }
    ensures edges { vec_len graph.new.edges ≡ vec_len graph.old.edges + length group.now.deps }
    ensures edges_room { vec_capacity graph.new.edges ≡ vec_capacity graph.old.edges }
    ensures room { (groups members deps : ℕ) → IsEnough graph.old.nodes.room (groups + 1) (length group.now.members + members) (length group.now.deps + deps) → IsEnough graph.new.nodes.room groups members deps }
{
    let number = graph.nodes.push(group);
    house(&mut graph.homes, group.members.as_slice(), number);
    list_all(
        &mut graph.firsts,
        &mut graph.edges,
        graph.nodes.deps_of(number),
        number,
    );
}

/// Adds a group, of which it isn't known yet whether it is ready.
pub(crate) fn add(core: &mut Core, group: &Group)
    requires members { (m : InstId) → Contains group.now.members m → m.0 < length core.old.graph.homes.items }
    requires deps { (d : InstId) → Contains group.now.deps d → d.0 < length core.old.graph.firsts.items }
    requires firsts { length core.old.graph.firsts.items ≡ length core.old.graph.homes.items }
    requires fresh { AreFresh core.old.graph group.now.members }
    requires room { HasRoom core.old 1 (length group.now.members) (length group.now.deps) }
    requires sound { IsSound core.old }
    requires indexed { IsIndexed core.old.graph }
    ensures sound { IsSound core.new }
    ensures indexed { IsIndexed core.new.graph }
    ensures added { IsAdded core.old core.new group.now }
{
    add_group(&mut core.graph, group);
    core.links.push_reserved(Slot::none());
    core.nexts.push_reserved(Slot::none());
    core.cursors.push_reserved(0);
    core.trail.seen.push_reserved(false);
}

/// The group at a place.
fn group_at(groups: &[Group], k: usize) -> &Group
    requires { k < length groups.now }
    ensures { slice_get groups.now k ≡ Some result.now }
{
    &groups[k]
}

/// Adds groups, from the last to the first.
pub(crate) fn add_all(core: &mut Core, groups: &[Group])
    requires members { AreBelow groups.now (length core.old.graph.homes.items) }
    requires firsts { length core.old.graph.firsts.items ≡ length core.old.graph.homes.items }
    requires fresh { AreNew core.old.graph groups.now }
    requires apart { AreApart groups.now }
    requires room { HasRoom core.old (length groups.now) (member_count groups.now) (dep_count groups.now) }
    requires sound { IsSound core.old }
    requires indexed { IsIndexed core.old.graph }
    requires held { AreHeld core.old (length core.old.graph.nodes.items) 0 }
    ensures sound { IsSound core.new }
    ensures indexed { IsIndexed core.new.graph }
    ensures held { AreHeld core.new (length core.old.graph.nodes.items) 0 }
    ensures unlinked { AreUnlinked core.new.links.items (length core.old.graph.nodes.items) }
    ensures added { AreAdded core.old core.new groups.now 0 }
{
    let mut left = groups.len();
    while left > 0 {
        left -= 1;
        add(core, group_at(groups, left));
    }
}
