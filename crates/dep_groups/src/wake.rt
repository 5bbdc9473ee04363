ghost use Rattle.std.specs.Prelude.{◌≡◌, ◌<◌, ◌≤◌, ◌+◌, ℕ, Some, true, length, vec_len, vec_capacity};
ghost use Rattle.dep_groups.specs.Places.{place};
ghost use Rattle.dep_groups.specs.Shape.{ready_in};
ghost use Rattle.dep_groups.specs.Links.{waiting};
ghost use Rattle.dep_groups.specs.Marks.{Tells};
ghost use Rattle.dep_groups.specs.Core.{IsSound};
ghost use Rattle.dep_groups.specs.Wake.{AreHeld, AllHeld, AreToldReady, AreUnlinked, IsSameGraph};

use crate::links::leave;
use crate::places::at;
use crate::resolve::{Core, resolve};

/// Finds out which of the groups from one on are ready.
pub(crate) fn resolve_from(core: &mut Core, first: usize)
    requires first { first ≤ length core.old.graph.nodes.items }
    requires sound { IsSound core.old }
    requires unlinked { AreUnlinked core.old.links.items first }
    requires held { AreHeld core.old first 0 }
    ensures sound { IsSound core.new }
    ensures graph { IsSameGraph core.old.graph core.new.graph }
    ensures capacity { vec_capacity core.new.told ≡ vec_capacity core.old.told }
    ensures tells { Tells core.old.graph.ready.items core.new.graph.ready.items core.old.told.items core.new.told.items }
    ensures held { AreHeld core.new (length core.new.graph.nodes.items) 0 }
{
    for group in first..core.graph.nodes.len() {
        resolve(core, group as u32);
    }
}

/// Looks again at the group at the head of the queue of an instance that is ready.
fn wake_first(core: &mut Core, told: usize, instance: u32, group: u32)
    requires told { told ≤ vec_len core.old.told }
    requires head { place core.old.heads.items instance ≡ Some group }
    requires ready { ready_in core.old.graph instance ≡ true }
    requires sound { IsSound core.old }
    requires held { AreHeld core.old (length core.old.graph.nodes.items) told }
    ensures sound { IsSound core.new }
    ensures graph { IsSameGraph core.old.graph core.new.graph }
    ensures capacity { vec_capacity core.new.told ≡ vec_capacity core.old.told }
    ensures tells { Tells core.old.graph.ready.items core.new.graph.ready.items core.old.told.items core.new.told.items }
    ensures held { AreHeld core.new (length core.new.graph.nodes.items) told }
    ensures fewer { waiting instance core.new.links.items < waiting instance core.old.links.items }
{
    leave(
        &core.graph,
        &mut core.links,
        &core.nexts,
        &mut core.heads,
        instance,
        group,
    );
    resolve(core, group);
}

/// Looks again at the groups that are linked to an instance that was told.
fn wake(core: &mut Core, told: usize)
    requires told { told < vec_len core.old.told }
    requires sound { IsSound core.old }
    requires ready { AreToldReady core.old }
    requires held { AreHeld core.old (length core.old.graph.nodes.items) told }
    ensures sound { IsSound core.new }
    ensures graph { IsSameGraph core.old.graph core.new.graph }
    ensures capacity { vec_capacity core.new.told ≡ vec_capacity core.old.told }
    ensures tells { Tells core.old.graph.ready.items core.new.graph.ready.items core.old.told.items core.new.told.items }
    ensures held { AreHeld core.new (length core.new.graph.nodes.items) (told + 1) }
{
    let instance = core.told[told].0;
    while let Some(group) = at(&core.heads, instance as usize) {
        wake_first(core, told, instance, group);
    }
}

/// Looks again at the groups that are linked to what was told, until no group is.
pub(crate) fn wake_all(core: &mut Core)
    requires sound { IsSound core.old }
    requires ready { AreToldReady core.old }
    requires held { AreHeld core.old (length core.old.graph.nodes.items) 0 }
    ensures sound { IsSound core.new }
    ensures graph { IsSameGraph core.old.graph core.new.graph }
    ensures tells { Tells core.old.graph.ready.items core.new.graph.ready.items core.old.told.items core.new.told.items }
    ensures held { AllHeld core.new.graph core.new.links.items }
{
    let mut told = 0;
    while told < core.told.len() {
        wake(core, told);
        told += 1;
    }
}
