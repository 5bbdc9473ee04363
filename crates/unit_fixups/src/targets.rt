ghost use Rattle.std.specs.Prelude.{◌≡◌, ℕ, ◌<◌, None, All, length, map, slice_index, slice_index_or, unwrap_or, IfOk};
ghost use Rattle.link_model.specs.declared.graph.GSym.{GSym as SymbolSeen};
ghost use Rattle.link_model.specs.Image.{own_address, bound_address, told_address, offset_of};
ghost use Rattle.unit_fixups.specs.Sound.{Lies};
ghost use Rattle.unit_fixups.specs.Tables.{address_in, IsTable, AreTables};

use crate::place::place_address;
use link_model::{Layout, LinkGraph};
use std::alloc::{AllocError, Global};

/// What edges reach of each symbol.
#[derive(Drop)]
pub struct Targets {
    /// Its address: the unit's own, or that of what it is bound to.
    pub(crate) told: Vec<u64>,
    /// The offset of its GOT cell.
    pub(crate) cells: Vec<Option<u64>>,
    /// The offset of its stub.
    pub(crate) stubs: Vec<Option<u64>>,
}

/// What edges reach of each symbol, with the unit at a base and its externals bound to these addresses,
/// or to none.
pub fn targets_of(
    alloc: Global,
    g: &LinkGraph,
    l: &Layout,
    base: u64,
    bound: &[Option<u64>],
) -> Result<Targets, AllocError>
    requires lies { Lies g.now l.now base }
    requires bound { length bound.now ≡ length l.now.externals }
    ensures told { IfOk result (λ t. address_in t ≡ told_address g.now l.now base bound.now) }
    ensures tables { IfOk result (λ t. AreTables g.now l.now t) }
{
    let count = g.symbols.len();
    let mut told = own_addresses(alloc, g, l, base)?;
    bind(told.as_mut_slice(), l.externals.as_slice(), bound);
    Ok(Targets {
        told,
        cells: by_symbol(alloc, count, l.cells.as_slice())?,
        stubs: by_symbol(alloc, count, l.stubs.as_slice())?,
    })
}

/// The addresses of the symbols by their places in the unit; 0 of those in another.
fn own_addresses(
    alloc: Global,
    g: &LinkGraph,
    l: &Layout,
    base: u64,
) -> Result<Vec<u64>, AllocError>
    requires { Lies g.now l.now base }
    ensures { IfOk result (λ own. own.items ≡ map (λ (s : SymbolSeen). own_address l.now base s.place) g.now.symbols) }
{
    let mut own = Vec::with_capacity(alloc, g.symbols.as_slice().len())?;
    for s in g.symbols.as_slice() {
        own.push(place_address(g, l, base, s.place))?;
    }
    Ok(own)
}

/// Puts the addresses of the externals over those of their places.
fn bind(told: &mut [u64], externals: &[u32], bound: &[Option<u64>])
    requires there { All (λ s. s < length told.old) externals.now }
    requires whole { length bound.now ≡ length externals.now }
    ensures whole { length told.new ≡ length told.old }
    ensures exact { (s : ℕ) → slice_index told.new s ≡ unwrap_or (bound_address externals.now bound.now s) (slice_index told.old s) }
{
    for k in (0..externals.len()).rev() {
        told[externals[k] as usize] = bound[k].unwrap_or(0);
    }
}

/// The table of what the pairs have for each symbol, of which there are so many.
fn by_symbol(
    alloc: Global,
    count: usize,
    pairs: &[(u32, u64)],
) -> Result<Vec<Option<u64>>, AllocError>
    requires { All (λ (p : ℕ × ℕ). p.0 < count) pairs.now }
    ensures { IfOk result (λ table. IsTable count pairs.now table.items) }
{
    let mut table = Vec::new(alloc);
    table.resize(count, None)?;
    note_all(table.as_mut_slice(), pairs);
    Ok(table)
}

fn note_all(table: &mut [Option<u64>], pairs: &[(u32, u64)])
    requires there { All (λ (p : ℕ × ℕ). p.0 < length table.old) pairs.now }
    requires none { (s : ℕ) → slice_index_or table.old s None ≡ None }
    ensures whole { length table.new ≡ length table.old }
    ensures exact { (s : ℕ) → slice_index_or table.new s None ≡ offset_of pairs.now s }
{
    for k in (0..pairs.len()).rev() {
        table[pairs[k].0 as usize] = Some(pairs[k].1);
    }
}
