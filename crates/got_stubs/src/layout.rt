ghost use Rattle.std.specs.Prelude.{◌≡◌, ◌<◌, ◌^◌, IfOk};
ghost use Rattle.link_model.specs.Layout.{layout_of};
ghost use Rattle.link_model.specs.Sound.{Sound, IsSized};

use crate::plan::plan_of;
use link_model::{Layout, LinkGraph};
use std::alloc::{AllocError, Global};

/// Where the parts of the unit of a graph lie, with these live names. `live` has a flag for each
/// offered symbol, in symbol order; a flag that isn't there says that the symbol isn't live.
pub fn synthesise(alloc: Global, g: &LinkGraph, live: &[bool]) -> Result<Layout, AllocError>
    requires sound { Sound g.now }
    requires sized { IsSized g.now }
    ensures exact { IfOk result (λ l. l ≡ layout_of g.now live.now) }
    ensures small { IfOk result (λ l. l.shape.need < 2 ^ 27) }
{
    plan_of(alloc, g)?.layout(alloc, g, live)
}
