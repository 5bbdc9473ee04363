ghost use Rattle.std.specs.Prelude.{◌≡◌, ◌<◌, ◌^◌, None, length, IfOk, IfErr};
ghost use Rattle.unit_fixups.specs.Refusal.{Refuses};
ghost use Rattle.got_stubs.specs.Plan.{IsPlan};
ghost use Rattle.link_model.specs.Graph.{external_symbols};
ghost use Rattle.block_groups.specs.Groups.{groups_of, live_places};
ghost use Rattle.link_model.specs.Image.{image_of, refused_edge};
ghost use Rattle.link_model.specs.Layout.{layout_of};
ghost use Rattle.link_model.specs.Sound.{IsSized, Sound};
ghost use Rattle.session_model.specs.Meaning.{FitsUnit};
ghost use Rattle.session_units.specs.Meaning.{instances, addresses};
ghost use Rattle.session_units.specs.Units.{meaning_of};

use crate::bindings::{bound_addresses, bound_instances};
use crate::unit::ObjectUnit;
use block_groups::groups_of;
use got_stubs::Plan;
use link_model::LinkGraph;
use orc_ids::{Bytes, Groups, InstId};
use std::alloc::Global;
use unit_fixups::{FixError, fix};

/// The groups and the image of a graph, by its plan.
pub(crate) fn finish_graph(
    alloc: Global,
    g: &LinkGraph,
    plan: &Plan,
    live: &[bool],
    base: u64,
    bound: &[Option<(InstId, u64)>],
    own: &[InstId],
) -> Result<(Groups, Bytes), FixError>
    requires sound { Sound g.now }
    requires sized { IsSized g.now }
    requires plan { IsPlan g.now plan.now }
    requires own { length own.now ≡ length (live_places g.now live.now) }
    requires bound { length bound.now ≡ length (external_symbols g.now live.now) }
    requires low { base < 2 ^ 62 }
    ensures allowed { IfOk result (λ made. refused_edge g.now (layout_of g.now live.now) base (addresses bound.now) ≡ None) }
    ensures groups { IfOk result (λ made. made.0 ≡ groups_of g.now live.now own.now (instances bound.now)) }
    ensures image { IfOk result (λ made. made.1 ≡ image_of g.now (layout_of g.now live.now) base (addresses bound.now)) }
    ensures refused { IfErr result (λ e. Refuses e (refused_edge g.now (layout_of g.now live.now) base (addresses bound.now))) }
{
    let layout = plan.layout(alloc, g, live)?;
    let told = bound_addresses(alloc, bound)?;
    let image = fix(alloc, g, &layout, base, &told)?;
    let found = bound_instances(alloc, bound)?;
    let groups = groups_of(alloc, g, &layout, own, &found)?;
    Ok((groups, image))
}

/// The groups and the image of a unit, with these live names, at this base and with these bindings; or
/// its first edge out of range. `live` has a flag for each offered name, `bound` an item for each
/// external, and `own` an instance for each live name. Absolute symbols and aliases have no bytes.
pub fn finish(
    alloc: Global,
    unit: &ObjectUnit,
    live: &[bool],
    base: u64,
    bound: &[Option<(InstId, u64)>],
    own: &[InstId],
) -> Result<(Groups, Bytes), FixError>
    requires fits { FitsUnit (meaning_of unit.now) live.now bound.now own.now }
    requires low { base < 2 ^ 62 }
    ensures allowed { IfOk result (λ made. (meaning_of unit.now).refusal live.now base bound.now ≡ None) }
    ensures groups { IfOk result (λ made. made.0 ≡ (meaning_of unit.now).groups live.now base bound.now own.now) }
    ensures image { IfOk result (λ made. made.1 ≡ (meaning_of unit.now).image live.now base bound.now) }
    ensures refused { IfErr result (λ e. Refuses e ((meaning_of unit.now).refusal live.now base bound.now)) }
{
    match unit {
        ObjectUnit::Graph(unit) => unit.finish(alloc, live, base, bound, own),
        ObjectUnit::Absolutes(unit) => Ok((unit.groups(alloc, own)?, Bytes::new(alloc))),
        ObjectUnit::Alias(unit) => Ok((unit.groups(alloc, bound, own)?, Bytes::new(alloc))),
    }
}
