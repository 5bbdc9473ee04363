ghost use Rattle.std.specs.Prelude.{◌≡◌, ◌+◌, ◌<◌, ◌≤◌, ◌^◌, length, map, pos, ◌-ℤ◌, slice_index, unwrap_or};
ghost use Rattle.link_model.specs.Image.{cell_write, stub_write, written, all_written, offset_of, KIND_64, KIND_CALL};
ghost use Rattle.link_model.specs.Layout.{CELL_SIZE, STUB_SIZE};
ghost use Rattle.unit_fixups.specs.Sound.{Lies};
ghost use Rattle.unit_fixups.specs.Tables.{address_in, AreTables};

use crate::targets::Targets;
use link_model::kinds::CALL;
use link_model::{Layout, LinkGraph};
use orc_words::put_le;
use reloc_table::patch_at;

/// Writes an address, which a cell holds.
fn fill_cell(address: u64, at: usize, image: &mut [u8])
    requires { at + CELL_SIZE ≤ length image.old }
    ensures { slice_index image.new ≡ written (record { at = at; kind = KIND_64; value = pos address }) (slice_index image.old) }
{
    put_le(image, at, 8, address);
}

/// Writes into each cell the address of its symbol.
pub fn fill_cells(g: &LinkGraph, l: &Layout, base: u64, t: &Targets, image: &mut [u8])
    requires lies { Lies g.now l.now base }
    requires tables { AreTables g.now l.now t.now }
    requires whole { length image.old ≡ l.now.shape.need }
    ensures { slice_index image.new ≡ all_written (map (cell_write (address_in t.now)) l.now.cells) (slice_index image.old) }
{
    for cell in l.cells.as_slice() {
        fill_cell(t.told[cell.0 as usize], cell.1 as usize, image);
    }
}

fn distance(from: u64, to: u64) -> i64
    requires near_from { from < 2 ^ 27 }
    requires near_to { to < 2 ^ 27 }
    ensures { result ≡ pos to -ℤ pos from }
{
    to as i64 - from as i64
}

/// Writes into a stub the way to its cell.
fn fill_stub(cell: u64, at: usize, image: &mut [u8])
    requires inside { at + STUB_SIZE ≤ length image.old }
    requires near_cell { cell < 2 ^ 27 }
    requires near { at < 2 ^ 27 }
    ensures { slice_index image.new ≡ written (record { at = at; kind = KIND_CALL; value = pos cell -ℤ pos at }) (slice_index image.old) }
{
    match patch_at(CALL, image, at, distance(at as u64, cell)) {
        Ok(()) => {}
        Err(_) => unreachable!(),
    }
}

/// Writes into each stub the way to the cell of its symbol.
pub fn fill_stubs(g: &LinkGraph, l: &Layout, base: u64, t: &Targets, image: &mut [u8])
    requires lies { Lies g.now l.now base }
    requires tables { AreTables g.now l.now t.now }
    requires whole { length image.old ≡ l.now.shape.need }
    ensures { slice_index image.new ≡ all_written (map (stub_write l.now) l.now.stubs) (slice_index image.old) }
{
    for stub in l.stubs.as_slice() {
        let cell = t.cells[stub.0 as usize].unwrap_or(0);
        fill_stub(cell, stub.1 as usize, image);
    }
}
