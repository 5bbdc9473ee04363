ghost use Rattle.std.specs.Prelude.{◌≡◌, ◌<◌, ℕ, Some, None, false, length, vec_capacity};
ghost use Rattle.dep_groups.specs.Places.{place};
ghost use Rattle.dep_groups.specs.Shape.{ready_in};
ghost use Rattle.dep_groups.specs.Links.{IsRelinked};
ghost use Rattle.dep_groups.specs.Marks.{Tells};
ghost use Rattle.dep_groups.specs.Core.{IsSound};
ghost use Rattle.dep_groups.specs.Wake.{IsSameGraph, IsSettled};

use crate::graph::Graph;
use crate::links::wait_for;
use crate::marks::mark_all;
use crate::seek::{clear, seek};
use crate::slot::Slot;
use crate::trail::{Trail, come_to};
use orc_ids::InstId;

/// What a frontier keeps: what was emitted; for each group the instance that it is linked to, and
/// the next group in that instance's queue; for each instance the head of its queue; how many of a
/// group's dependencies are ready for good; the room for a search; and what became ready.
#[derive(Drop)]
pub(crate) struct Core {
    pub(crate) graph: Graph,
    pub(crate) links: Vec<Slot>,
    pub(crate) nexts: Vec<Slot>,
    pub(crate) heads: Vec<Slot>,
    pub(crate) cursors: Vec<usize>,
    pub(crate) trail: Trail,
    pub(crate) told: Vec<InstId>,
}

/// Finds out whether a group is ready: then its members are marked and told, with all that it depends
/// on; else it is linked to what it waits for.
pub(crate) fn resolve(core: &mut Core, group: u32)
    requires group { group < length core.old.graph.nodes.items }
    requires unlinked { place core.old.links.items group ≡ None }
    requires sound { IsSound core.old }
    ensures sound { IsSound core.new }
    ensures graph { IsSameGraph core.old.graph core.new.graph }
    ensures capacity { vec_capacity core.new.told ≡ vec_capacity core.old.told }
    ensures tells { Tells core.old.graph.ready.items core.new.graph.ready.items core.old.told.items core.new.told.items }
    ensures settled { IsSettled core.new group }
    ensures only { IsRelinked core.old.links.items core.new.links.items group }
    ensures unready { (d : ℕ) → place core.new.links.items group ≡ Some d → ready_in core.new.graph d ≡ false }
{
    come_to(&mut core.trail, group);
    let found = seek(
        &core.graph,
        &core.links,
        &core.heads,
        &mut core.cursors,
        &mut core.trail,
        group,
    );
    match found {
        Some(to) => {
            wait_for(
                &core.graph,
                &mut core.links,
                &mut core.nexts,
                &mut core.heads,
                group,
                to,
            );
            clear(&mut core.trail);
        }
        None => {
            mark_all(
                &core.graph.homes,
                &core.graph.nodes,
                &mut core.graph.ready,
                &mut core.told,
                &core.trail,
            );
            clear(&mut core.trail);
        }
    }
}
