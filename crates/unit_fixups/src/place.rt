ghost use Rattle.std.specs.Prelude.{◌≡◌, ℕ, ◌+◌, ◌<◌, length, unwrap_or};
ghost use Rattle.std.specs.Option.{option_map_or};
ghost use Rattle.link_model.specs.Image.{at_or, edge_offset, edge_symbol, own_address, lone_value, offset_of};
ghost use Rattle.link_model.specs.Layout.{needs_stub};
ghost use Rattle.link_model.specs.Sound.{EdgeFits, PlaceFits};
ghost use Rattle.unit_fixups.specs.Sound.{Lies};
ghost use Rattle.unit_fixups.specs.Tables.{address_in, AreTables};

use crate::targets::Targets;
use link_model::kinds::{CALL, CALL_PLT, GOT_HI20, PLT32};
use link_model::{Edge, GPlace, Layout, LinkGraph};
use reloc_table::value;

/// The offset of a block in the unit.
fn block_offset(g: &LinkGraph, l: &Layout, base: u64, block: u32) -> u64
    requires lies { Lies g.now l.now base }
    requires there { block < length g.now.blocks }
    ensures { result ≡ at_or 0 l.now.blocks block }
{
    l.blocks.as_slice()[block as usize]
}

/// The offset of an edge in the unit.
pub fn edge_offset(g: &LinkGraph, l: &Layout, base: u64, e: &Edge) -> u64
    requires lies { Lies g.now l.now base }
    requires fits { EdgeFits g.now e.now }
    ensures { result ≡ edge_offset l.now e.now }
{
    block_offset(g, l, base, e.block) + e.offset
}

/// The address of a place of a symbol.
pub fn place_address(g: &LinkGraph, l: &Layout, base: u64, place: GPlace) -> u64
    requires lies { Lies g.now l.now base }
    requires fits { PlaceFits g.now place }
    ensures { result ≡ own_address l.now base place }
{
    match place {
        GPlace::In(block, offset) => base + block_offset(g, l, base, block) + offset,
        GPlace::Abs(address) => address,
        GPlace::External(_) => 0,
    }
}

/// The address of the GOT cell of a symbol.
fn cell_address(g: &LinkGraph, l: &Layout, base: u64, t: &Targets, symbol: u32) -> u64
    requires lies { Lies g.now l.now base }
    requires tables { AreTables g.now l.now t.now }
    requires there { symbol < length g.now.symbols }
    ensures { result ≡ base + unwrap_or (offset_of l.now.cells symbol) 0 }
{
    base + t.cells[symbol as usize].unwrap_or(0)
}

/// The address that a call of a symbol goes to: its stub's, where it has one.
fn call_address(g: &LinkGraph, l: &Layout, base: u64, t: &Targets, symbol: u32) -> u64
    requires lies { Lies g.now l.now base }
    requires tables { AreTables g.now l.now t.now }
    requires there { symbol < length g.now.symbols }
    ensures { result ≡ option_map_or (λ stub. base + stub) (offset_of l.now.stubs symbol) (address_in t.now symbol) }
{
    match t.stubs[symbol as usize] {
        Some(stub) => base + stub,
        None => t.told[symbol as usize],
    }
}

fn is_call(e: &Edge) -> bool
    ensures { result ≡ needs_stub e.now }
{
    e.kind == CALL || e.kind == CALL_PLT || e.kind == PLT32
}

/// The address that an edge refers to: its symbol's, its cell's or its stub's.
fn edge_symbol(g: &LinkGraph, l: &Layout, base: u64, t: &Targets, e: &Edge) -> u64
    requires lies { Lies g.now l.now base }
    requires tables { AreTables g.now l.now t.now }
    requires fits { EdgeFits g.now e.now }
    ensures { result ≡ edge_symbol l.now base (address_in t.now) e.now }
{
    if e.kind == GOT_HI20 {
        cell_address(g, l, base, t, e.target)
    } else if is_call(e) {
        call_address(g, l, base, t, e.target)
    } else {
        t.told[e.target as usize]
    }
}

/// The value of an edge that needs no other.
pub fn lone_value(g: &LinkGraph, l: &Layout, base: u64, t: &Targets, e: &Edge) -> i64
    requires lies { Lies g.now l.now base }
    requires tables { AreTables g.now l.now t.now }
    requires fits { EdgeFits g.now e.now }
    ensures { result ≡ lone_value l.now base (address_in t.now) e.now }
{
    value(
        e.kind,
        edge_symbol(g, l, base, t, e),
        e.addend,
        base + edge_offset(g, l, base, e),
    )
}
