ghost use Rattle.std.specs.Prelude.{◌≡◌, ◌*◌, ◌≤◌, IfOk};
ghost use Rattle.link_model.specs.Layout.{block_offsets, blocks_end, unit_align};
ghost use Rattle.link_model.specs.Sound.{IsSized};

use crate::turns::align_up;
use link_model::LinkGraph;
use std::alloc::{AllocError, Global};

/// The offsets of the blocks, and where they end.
pub(crate) struct PlacedBlocks {
    pub(crate) offsets: Vec<u64>,
    pub(crate) end: u64,
}

/// Each block at the next multiple of its alignment.
pub(crate) fn place_blocks(alloc: Global, g: &LinkGraph) -> Result<PlacedBlocks, AllocError>
    requires { IsSized g.now }
    ensures offsets { IfOk result (λ placed. placed.offsets.items ≡ block_offsets 0 g.now.blocks) }
    ensures end { IfOk result (λ placed. placed.end ≡ blocks_end 0 g.now.blocks) }
    ensures low { IfOk result (λ placed. placed.end ≤ 80 * 1024 * 1024) }
{
    let mut offsets = Vec::new(alloc);
    let mut end: u64 = 0;
    for block in g.blocks.as_slice() {
        let at = align_up(end, block.align);
        offsets.push(at)?;
        end = at + block.size;
    }
    Ok(PlacedBlocks { offsets, end })
}

/// The greatest alignment, and at least 16.
pub(crate) fn greatest_align(g: &LinkGraph) -> u64
    ensures { result ≡ unit_align g.now }
{
    let mut align = 16;
    for block in g.blocks.as_slice() {
        align = align.max(block.align);
    }
    align
}
