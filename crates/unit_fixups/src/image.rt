ghost use Rattle.std.specs.Prelude.{◌≡◌, None, IfErr, IfOk, OnOk, length, slice_index};
ghost use Rattle.link_model.specs.Image.{image_of, refused_edge, first_refused, writes, all_written};
ghost use Rattle.std.specs.Prelude.{ℕ};
ghost use Rattle.std.specs.HashMap.{get};
ghost use Rattle.unit_fixups.specs.Refusal.{Refuses};
ghost use Rattle.unit_fixups.specs.Sound.{Lies, Placed};
ghost use Rattle.unit_fixups.specs.Tables.{address_in, AreTables, upper_value, same_place};

use crate::apply::{FixError, apply_edges};
use crate::cells::{fill_cells, fill_stubs};
use crate::raw::raw_image;
use crate::targets::{Targets, targets_of};
use crate::upper::uppers;
use link_model::{Layout, LinkGraph};
use orc_ids::Bytes;
use std::alloc::Global;
use std::collections::HashMap;

/// Makes all writes: those of cells and stubs, then those of the edges.
fn write_all(
    g: &LinkGraph,
    l: &Layout,
    base: u64,
    t: &Targets,
    uppers: &HashMap<(u32, u64), i64>,
    image: &mut [u8],
) -> Result<(), FixError>
    requires lies { Lies g.now l.now base }
    requires tables { AreTables g.now l.now t.now }
    requires uppers { (block offset : ℕ) → get same_place uppers.now (block, offset) ≡ upper_value l.now base (address_in t.now) g.now.edges block offset }
    requires whole { length image.old ≡ l.now.shape.need }
    ensures allowed { IfOk result (λ u. first_refused g.now l.now base (address_in t.now) g.now.edges ≡ None) }
    ensures done { OnOk result (slice_index image.new ≡ all_written (writes g.now l.now base (address_in t.now)) (slice_index image.old)) }
    ensures refused { IfErr result (λ e. Refuses e (first_refused g.now l.now base (address_in t.now) g.now.edges)) }
{
    fill_cells(g, l, base, t, image);
    fill_stubs(g, l, base, t, image);
    apply_edges(g, l, base, t, uppers, image)
}

/// The image of a unit at a base: its raw bytes, cells and stubs with every edge applied, in file
/// order. `bound` has the address of each external, in symbol order, or none where a weak reference has
/// no match.
pub fn fix(
    alloc: Global,
    g: &LinkGraph,
    l: &Layout,
    base: u64,
    bound: &[Option<u64>],
) -> Result<Bytes, FixError>
    requires placed { Placed g.now l.now base }
    requires bound { length bound.now ≡ length l.now.externals }
    ensures allowed { IfOk result (λ image. refused_edge g.now l.now base bound.now ≡ None) }
    ensures done { IfOk result (λ image. image ≡ image_of g.now l.now base bound.now) }
    ensures refused { IfErr result (λ e. Refuses e (refused_edge g.now l.now base bound.now)) }
{
    let targets = targets_of(alloc, g, l, base, bound)?;
    let values = uppers(alloc, g, l, base, &targets)?;
    let mut image = raw_image(alloc, g, l, base)?;
    write_all(g, l, base, &targets, &values, image.as_mut_slice())?;
    Ok(Bytes::from_vec(image))
}
