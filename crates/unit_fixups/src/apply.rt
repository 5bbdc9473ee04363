ghost use Rattle.std.specs.Prelude.{◌≡◌, ℕ, ◌<◌, length, map, true, false, None, Some, slice_index, IfErr, OnOk};
ghost use Rattle.std.specs.HashMap.{get};
ghost use Rattle.link_model.specs.Image.{edge_value, edge_write, edge_in_range, written, all_written, first_refused};
ghost use Rattle.link_model.specs.Sound.{EdgeFits};
ghost use Rattle.unit_fixups.specs.Sound.{Lies};
ghost use Rattle.unit_fixups.specs.Refusal.{Refuses};
ghost use Rattle.unit_fixups.specs.Tables.{address_in, AreTables, upper_value, same_place};
ghost use Rattle.unit_fixups.specs.declared.apply.FixError.TheVariants.{NoMemory};

use crate::place::edge_offset;
use crate::targets::Targets;
use crate::upper::edge_value;
use link_model::{Edge, Layout, LinkGraph};
use orc_ids::Place;
use reloc_table::{OutOfRange, patch_at};
use std::alloc::AllocError;
use std::collections::HashMap;

/// Why a unit can't be fixed.
#[derive(Drop)]
pub enum FixError {
    /// The place, kind and value of the first edge, in file order, whose value is out of its range.
    OutOfRange(Place, u32, i64),
    NoMemory,
}

impl From<AllocError> for FixError {
    ghost from_gives = { λ _ e. e ≡ NoMemory };

    fn from(_: AllocError) -> FixError {
        FixError::NoMemory
    }
}

/// Applies every edge, in file order.
pub fn apply_edges(
    g: &LinkGraph,
    l: &Layout,
    base: u64,
    t: &Targets,
    uppers: &HashMap<(u32, u64), i64>,
    image: &mut [u8],
) -> Result<(), FixError>
    requires lies { Lies g.now l.now base }
    requires tables { AreTables g.now l.now t.now }
    requires uppers { (block offset : ℕ) → get same_place uppers.now (block, offset) ≡ upper_value l.now base (address_in t.now) g.now.edges block offset }
    requires whole { length image.old ≡ l.now.shape.need }
    ensures done { OnOk result ((first_refused g.now l.now base (address_in t.now) g.now.edges ≡ None) × (slice_index image.new ≡ all_written (map (edge_write g.now l.now base (address_in t.now)) g.now.edges) (slice_index image.old))) }
    ensures refused { IfErr result (λ e. Refuses e (first_refused g.now l.now base (address_in t.now) g.now.edges)) }
{
    for e in g.edges.as_slice() {
        if let Err(why) = apply_edge(g, l, base, t, uppers, e, image) {
            return Err(refusal(e, why));
        }
    }
    Ok(())
}

fn refusal(e: &Edge, why: OutOfRange) -> FixError
    ensures { result ≡ FixError.OutOfRange (record { block = e.now.block; offset = e.now.offset }) why.kind why.v }
{
    FixError::OutOfRange(
        Place {
            block: e.block,
            offset: e.offset,
        },
        why.kind,
        why.v,
    )
}

fn apply_edge(
    g: &LinkGraph,
    l: &Layout,
    base: u64,
    t: &Targets,
    uppers: &HashMap<(u32, u64), i64>,
    e: &Edge,
    image: &mut [u8],
) -> Result<(), OutOfRange>
    requires lies { Lies g.now l.now base }
    requires tables { AreTables g.now l.now t.now }
    requires uppers { (block offset : ℕ) → get same_place uppers.now (block, offset) ≡ upper_value l.now base (address_in t.now) g.now.edges block offset }
    requires fits { EdgeFits g.now e.now }
    requires whole { length image.old ≡ l.now.shape.need }
    ensures done { OnOk result ((edge_in_range e.now (edge_value g.now l.now base (address_in t.now) e.now) ≡ true) × (slice_index image.new ≡ written (edge_write g.now l.now base (address_in t.now) e.now) (slice_index image.old))) }
    ensures refused { IfErr result (λ r. (edge_in_range e.now (edge_value g.now l.now base (address_in t.now) e.now) ≡ false) × (r ≡ record { kind = e.now.kind; v = edge_value g.now l.now base (address_in t.now) e.now })) }
{
    let at = edge_offset(g, l, base, e);
    patch_at(
        e.kind,
        image,
        at as usize,
        edge_value(g, l, base, t, uppers, e),
    )
}
