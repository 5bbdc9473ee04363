ghost use Rattle.std.specs.Prelude.{◌≡◌, ◌+◌, ◌*◌, ◌<◌, ◌≤◌, ◌^◌, max, length, IfOk};
ghost use Rattle.link_model.specs.Layout.{aligned, in_turn, CELL_SIZE, STUB_SIZE};

use crate::turns::{align_up, place_in_turn};
use std::alloc::{AllocError, Global};

const CELL: u64 = 8;

const STUB: u64 = 16;

/// Cells and stubs with their offsets, and what the unit needs.
#[derive(Drop)]
pub(crate) struct Tables {
    pub(crate) cells: Vec<(u32, u64)>,
    pub(crate) stubs: Vec<(u32, u64)>,
    pub(crate) need: u64,
}

/// The cells and stubs behind the blocks, which end here.
pub(crate) fn place_tables(
    alloc: Global,
    end: u64,
    cells: &[u32],
    stubs: &[u32],
) -> Result<Tables, AllocError>
    requires low { end ≤ 80 * 1024 * 1024 }
    requires few_cells { length cells.now ≤ 65536 }
    requires few_stubs { length stubs.now ≤ 65536 }
    ensures cells { IfOk result (λ t. t.cells.items ≡ in_turn (aligned end 8) CELL_SIZE cells.now) }
    ensures stubs { IfOk result (λ t. t.stubs.items ≡ in_turn (aligned (aligned end 8 + CELL_SIZE * length cells.now) 16) STUB_SIZE stubs.now) }
    ensures need { IfOk result (λ t. t.need ≡ max 16 (aligned (aligned (aligned end 8 + CELL_SIZE * length cells.now) 16 + STUB_SIZE * length stubs.now) 16)) }
    ensures small { IfOk result (λ t. t.need < 2 ^ 27) }
{
    let cells_start = align_up(end, CELL);
    let stubs_start = align_up(cells_start + CELL * cells.len() as u64, STUB);
    let unit_end = align_up(stubs_start + STUB * stubs.len() as u64, STUB);
    Ok(Tables {
        cells: place_in_turn(alloc, cells_start, CELL, cells)?,
        stubs: place_in_turn(alloc, stubs_start, STUB, stubs)?,
        need: unit_end.max(16),
    })
}
