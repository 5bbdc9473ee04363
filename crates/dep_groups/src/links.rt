ghost use Rattle.std.specs.Prelude.{◌≡◌, ◌<◌, ◌^◌, ℕ, Some, None, false, length};
ghost use Rattle.dep_groups.specs.Places.{place};
ghost use Rattle.dep_groups.specs.Shape.{ready_in};
ghost use Rattle.dep_groups.specs.Search.{LinksLead};
ghost use Rattle.dep_groups.specs.Links.{AllEnd, AreQueued, IsFound, IsHeld, IsRelinked};

use crate::graph::Graph;
use crate::places::{empty, put, set, slot_at};
use crate::slot::Slot;

/// Links a group to an instance, and puts it at the head of that instance's queue.
pub(crate) fn wait_for(
    graph: &Graph,
    links: &mut [Slot],
    nexts: &mut [Slot],
    heads: &mut [Slot],
    group: u32,
    to: u32,
)
    requires group { (group < length links.old) × (length nexts.old ≡ length links.old) }
    requires heads { length heads.old ≡ length graph.now.homes.items }
    requires few { (length links.old < 2 ^ 32) × (length graph.now.homes.items < 2 ^ 32) }
    requires unlinked { place links.old group ≡ None }
    requires found { IsFound graph.now heads.old group to }
    requires ends { AllEnd graph.now links.old }
    requires leads { LinksLead graph.now links.old }
    requires queued { AreQueued links.old nexts.old heads.old }
    ensures ends { AllEnd graph.now links.new }
    ensures leads { LinksLead graph.now links.new }
    ensures queued { AreQueued links.new nexts.new heads.new }
    ensures held { IsHeld graph.now links.new group }
    ensures only { IsRelinked links.old links.new group }
    ensures unready { (d : ℕ) → place links.new group ≡ Some d → ready_in graph.now d ≡ false }
{
    set(nexts, group as usize, slot_at(heads, to as usize));
    put(heads, to as usize, group);
    put(links, group as usize, to);
}

/// Takes the group at the head of an instance's queue out of it.
pub(crate) fn leave(
    graph: &Graph,
    links: &mut [Slot],
    nexts: &[Slot],
    heads: &mut [Slot],
    instance: u32,
    group: u32,
)
    requires head { place heads.old instance ≡ Some group }
    requires ends { AllEnd graph.now links.old }
    requires leads { LinksLead graph.now links.old }
    requires queued { AreQueued links.old nexts.now heads.old }
    ensures ends { AllEnd graph.now links.new }
    ensures leads { LinksLead graph.now links.new }
    ensures queued { AreQueued links.new nexts.now heads.new }
    ensures was { place links.old group ≡ Some instance }
    ensures unlinked { place links.new group ≡ None }
    ensures only { IsRelinked links.old links.new group }
{
    set(heads, instance as usize, slot_at(nexts, group as usize));
    empty(links, group as usize);
}
