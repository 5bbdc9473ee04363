ghost use Rattle.std.specs.Prelude.{◌≡◌, ◌+◌, ◌++◌, [], length, flat_map, IfOk, OnOk};
ghost use Rattle.std.specs.List.{range_with_len};
ghost use Rattle.link_model.specs.Graph.{external_symbols};
ghost use Rattle.block_groups.specs.Groups.{group_of, groups_of, live_places};
ghost use Rattle.link_model.specs.Sound.{IsSized, Sound};
ghost use Rattle.block_groups.specs.Lists.{row};

use crate::lists::Lists;
use crate::members::members_by_block;
use crate::needing::deps_by_block;
use got_stubs::owners_of;
use link_model::{Layout, LinkGraph};
use orc_ids::{Group, Groups, InstId, Items};
use std::alloc::{AllocError, Global};

/// Puts the group of these members at the end, if there are any.
fn add_group(
    alloc: Global,
    groups: &mut Vec<Group>,
    members: &[InstId],
    deps: &[InstId],
) -> Result<(), AllocError>
    ensures { OnOk result (groups.new.items ≡ groups.old.items ++ group_of members.now deps.now) }
{
    if !members.is_empty() {
        groups.push(Group {
            members: Items::from_vec(members.to_vec(alloc)?),
            deps: Items::from_vec(deps.to_vec(alloc)?),
        })?;
    }
    Ok(())
}

/// The groups of so many blocks, and that of the absolute symbols, whose list stands behind the blocks'.
fn collect(
    alloc: Global,
    count: usize,
    members: &Lists<InstId>,
    deps: &Lists<InstId>,
) -> Result<Groups, AllocError>
    requires members { length members.now ≡ count + 1 }
    requires deps { length deps.now ≡ count }
    ensures { IfOk result (λ groups. groups ≡ flat_map (λ b. group_of (row members.now b) (row deps.now b)) (range_with_len 0 count) ++ group_of (row members.now count) []) }
{
    let mut groups = Vec::new(alloc);
    for b in 0..count {
        add_group(alloc, &mut groups, members.row(b), deps.row(b))?;
    }
    add_group(alloc, &mut groups, members.row(count), &[])?;
    Ok(Items::from_vec(groups))
}

/// The dependence groups of a unit with this layout: for each block with instances those, and the bound
/// externals that it needs, in symbol order; and then the absolute symbols. `own` has an instance for
/// each live name, and `bound` has what each external is bound to, in symbol order.
pub fn groups_of(
    alloc: Global,
    g: &LinkGraph,
    l: &Layout,
    own: &[InstId],
    bound: &[Option<InstId>],
) -> Result<Groups, AllocError>
    requires sound { Sound g.now }
    requires sized { IsSized g.now }
    requires externals { l.now.externals ≡ external_symbols g.now l.now.live }
    requires own { length own.now ≡ length (live_places g.now l.now.live) }
    requires bound { length bound.now ≡ length l.now.externals }
    ensures { IfOk result (λ groups. groups ≡ groups_of g.now l.now.live own.now bound.now) }
{
    let owners = owners_of(alloc, g.symbols.as_slice(), l.live.as_slice())?;
    let members = members_by_block(alloc, g, &owners, own)?;
    let deps = deps_by_block(alloc, g, l, &owners, bound)?;
    collect(alloc, g.blocks.len(), &members, &deps)
}
