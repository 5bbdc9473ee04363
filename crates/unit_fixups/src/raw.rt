ghost use Rattle.std.specs.Prelude.{◌≡◌, ℕ, ◌+◌, ◌<◌, ◌≤◌, ◌^◌, [], length, map, slice_index, IfOk};
ghost use Rattle.link_model.specs.declared.graph.Block.{Block};
ghost use Rattle.link_model.specs.Image.{at_or, pieces, raw_byte, stub_bytes};
ghost use Rattle.unit_fixups.specs.Sound.{Lies};
ghost use Rattle.unit_fixups.specs.Tables.{with_piece, stub_pieces};

use link_model::{Layout, LinkGraph};
use std::alloc::{AllocError, Global};

/// auipc t3, 0; ld t3, 0(t3); jalr t1, t3; nop
const STUB: [u8; 16] = [
    0x17, 0x0e, 0, 0, 0x03, 0x3e, 0x0e, 0, 0x67, 0x03, 0x0e, 0, 0x13, 0, 0, 0,
];

/// The raw bytes of a unit: the blocks' bytes and the stubs' words at their offsets, zeros elsewhere.
pub fn raw_image(alloc: Global, g: &LinkGraph, l: &Layout, base: u64) -> Result<Vec<u8>, AllocError>
    requires { Lies g.now l.now base }
    ensures whole { IfOk result (λ image. length image.items ≡ l.now.shape.need) }
    ensures raw { IfOk result (λ image. slice_index image.items ≡ raw_byte (pieces g.now l.now)) }
{
    let mut image = Vec::new(alloc);
    image.resize(l.shape.need as usize, 0)?;
    copy_stubs(g, l, base, image.as_mut_slice());
    copy_blocks(g, l, base, image.as_mut_slice());
    Ok(image)
}

/// Copies bytes to a place.
fn copy_to(at: u64, bytes: &[u8], image: &mut [u8])
    requires low { at < 2 ^ 63 }
    requires inside { at + length bytes.now ≤ length image.old }
    ensures { slice_index image.new ≡ with_piece at bytes.now (slice_index image.old) }
{
    let at = at as usize;
    image[at..at + bytes.len()].copy_from_slice(bytes);
}

fn copy_stubs(g: &LinkGraph, l: &Layout, base: u64, image: &mut [u8])
    requires lies { Lies g.now l.now base }
    requires whole { length image.old ≡ l.now.shape.need }
    requires zeros { (k : ℕ) → slice_index image.old k ≡ 0 }
    ensures { slice_index image.new ≡ raw_byte (stub_pieces l.now.stubs) }
{
    let stubs = l.stubs.as_slice();
    for k in (0..stubs.len()).rev() {
        copy_to(stubs[k].1, STUB.as_slice(), image);
    }
}

fn copy_blocks(g: &LinkGraph, l: &Layout, base: u64, image: &mut [u8])
    requires lies { Lies g.now l.now base }
    requires whole { length image.old ≡ l.now.shape.need }
    requires stubs { slice_index image.old ≡ raw_byte (stub_pieces l.now.stubs) }
    ensures { slice_index image.new ≡ raw_byte (pieces g.now l.now) }
{
    for k in (0..g.blocks.len()).rev() {
        copy_block(g, l, base, k, image);
    }
}

fn copy_block(g: &LinkGraph, l: &Layout, base: u64, k: usize, image: &mut [u8])
    requires lies { Lies g.now l.now base }
    requires whole { length image.old ≡ l.now.shape.need }
    requires there { k < length g.now.blocks }
    ensures { slice_index image.new ≡ with_piece (at_or 0 l.now.blocks k) (at_or [] (map (λ (b : Block). b.bytes) g.now.blocks) k) (slice_index image.old) }
{
    let bytes = g.blocks.as_slice()[k].bytes.as_slice();
    copy_to(l.blocks.as_slice()[k], bytes, image);
}
