ghost use Rattle.std.specs.Prelude.{◌≡◌, ◌≤◌, OnOk, OnErr, length};
ghost use Rattle.dep_groups.specs.Frontier.{AreApart};
ghost use Rattle.dep_groups.specs.Adding.{AreNew};
ghost use Rattle.dep_groups.specs.Kept.{entries_in};
ghost use Rattle.dep_groups.specs.Hits.{IsWhole};
ghost use Rattle.dep_groups.specs.Emit.{IsEmitted};

use crate::add::add_all;
use crate::hits::Hits;
use crate::prepare::prepare;
use crate::resolve::Core;
use crate::wake::{resolve_from, wake_all};
use orc_ids::Group;
use std::alloc::AllocError;

/// Emits groups: adds them, finds out which are ready, and looks again at all that waited for them.
pub(crate) fn emit_groups(
    core: &mut Core,
    hits: &mut Hits,
    groups: &[Group],
) -> Result<(), AllocError>
    requires whole { IsWhole core.old hits.old }
    requires apart { AreApart groups.now }
    requires fresh { AreNew core.old.graph groups.now }
    ensures whole { IsWhole core.new hits.new }
    ensures emitted { OnOk result (IsEmitted core.old core.new groups.now) }
    ensures entries { OnErr result (entries_in core.new ≡ entries_in core.old) }
    ensures told { OnErr result (core.new.told.items ≡ core.old.told.items) }
    ensures hits { hits.new.order.items ≡ hits.old.order.items }
    ensures more { length hits.old.flags.items ≤ length hits.new.flags.items }
    ensures places { OnErr result (length hits.new.flags.items ≡ length hits.old.flags.items) }
{
    prepare(core, hits, groups)?;
    let first = core.graph.nodes.len();
    add_all(core, groups);
    resolve_from(core, first);
    wake_all(core);
    Ok(())
}
