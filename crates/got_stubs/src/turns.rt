ghost use Rattle.std.specs.Prelude.{◌≡◌, ◌+◌, ◌*◌, ◌<◌, ◌≤◌, ◌^◌, length, IfOk};
ghost use Rattle.link_model.specs.Layout.{aligned, in_turn};

use std::alloc::{AllocError, Global};

/// The least multiple of the alignment that is no less.
pub(crate) fn align_up(at: u64, align: u64) -> u64
    requires positive { 0 < align }
    requires low { at + align < 2 ^ 63 }
    ensures exact { result ≡ aligned at align }
    ensures near { result < at + align }
    ensures above { at ≤ result }
{
    (at + (align - 1)) / align * align
}

/// The symbols with their offsets, one after another from a place.
pub(crate) fn place_in_turn(
    alloc: Global,
    from: u64,
    size: u64,
    symbols: &[u32],
) -> Result<Vec<(u32, u64)>, AllocError>
    requires low { from < 2 ^ 62 }
    requires small { size ≤ 16 }
    requires few { length symbols.now ≤ 65536 }
    ensures { IfOk result (λ placed. placed.items ≡ in_turn from size symbols.now) }
{
    let mut placed = Vec::new(alloc);
    let mut at = from;
    for symbol in symbols {
        placed.push((*symbol, at))?;
        at += size;
    }
    Ok(placed)
}
