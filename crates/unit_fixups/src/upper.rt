ghost use Rattle.std.specs.Prelude.{◌≡◌, ◌&&◌, ℕ, ◌<◌, length, true, false, if◌then◌else◌, Some, IfOk, OnOk};
ghost use Rattle.std.specs.HashMap.{get};
ghost use Rattle.link_model.specs.Image.{is_upper, is_paired, lone_value, edge_value};
ghost use Rattle.link_model.specs.Sound.{EdgeFits};
ghost use Rattle.unit_fixups.specs.Sound.{Lies};
ghost use Rattle.unit_fixups.specs.Tables.{address_in, AreTables, is_upper_at, upper_value, same_place};

use crate::place::lone_value;
use crate::targets::Targets;
use link_model::kinds::{GOT_HI20, PCREL_HI20, PCREL_LO12_I, PCREL_LO12_S};
use link_model::{Edge, GPlace, Layout, LinkGraph};
use std::alloc::{AllocError, Global};
use std::collections::HashMap;

/// The values of the upper parts by the places at which they stand, the first of each place.
pub fn uppers(
    alloc: Global,
    g: &LinkGraph,
    l: &Layout,
    base: u64,
    t: &Targets,
) -> Result<HashMap<(u32, u64), i64>, AllocError>
    requires lies { Lies g.now l.now base }
    requires tables { AreTables g.now l.now t.now }
    ensures { IfOk result (λ m. (block offset : ℕ) → get same_place m (block, offset) ≡ upper_value l.now base (address_in t.now) g.now.edges block offset) }
{
    let mut values = HashMap::new(alloc);
    let edges = g.edges.as_slice();
    for k in (0..edges.len()).rev() {
        note_upper(&mut values, g, l, base, t, &edges[k])?;
    }
    Ok(values)
}

fn note_upper(
    values: &mut HashMap<(u32, u64), i64>,
    g: &LinkGraph,
    l: &Layout,
    base: u64,
    t: &Targets,
    e: &Edge,
) -> Result<(), AllocError>
    requires lies { Lies g.now l.now base }
    requires tables { AreTables g.now l.now t.now }
    requires fits { EdgeFits g.now e.now }
    ensures { OnOk result ((block offset : ℕ) → get same_place values.new (block, offset) ≡ (if is_upper_at block offset e.now then Some (lone_value l.now base (address_in t.now) e.now) else get same_place values.old (block, offset))) }
{
    if e.kind == GOT_HI20 || e.kind == PCREL_HI20 {
        values.insert((e.block, e.offset), lone_value(g, l, base, t, e))?;
    }
    Ok(())
}

/// The value of an edge; that of the low part of a pair is its upper part's, or 0 where there is none.
pub fn edge_value(
    g: &LinkGraph,
    l: &Layout,
    base: u64,
    t: &Targets,
    uppers: &HashMap<(u32, u64), i64>,
    e: &Edge,
) -> i64
    requires lies { Lies g.now l.now base }
    requires tables { AreTables g.now l.now t.now }
    requires uppers { (block offset : ℕ) → get same_place uppers.now (block, offset) ≡ upper_value l.now base (address_in t.now) g.now.edges block offset }
    requires fits { EdgeFits g.now e.now }
    ensures { result ≡ edge_value g.now l.now base (address_in t.now) e.now }
{
    if e.kind == PCREL_LO12_I || e.kind == PCREL_LO12_S {
        paired_value(g, l, base, t, uppers, e)
    } else {
        lone_value(g, l, base, t, e)
    }
}

fn paired_value(
    g: &LinkGraph,
    l: &Layout,
    base: u64,
    t: &Targets,
    uppers: &HashMap<(u32, u64), i64>,
    e: &Edge,
) -> i64
    requires uppers { (block offset : ℕ) → get same_place uppers.now (block, offset) ≡ upper_value l.now base (address_in t.now) g.now.edges block offset }
    requires fits { EdgeFits g.now e.now }
    requires paired { is_paired e.now.kind ≡ true }
    ensures { result ≡ edge_value g.now l.now base (address_in t.now) e.now }
{
    match g.symbols.as_slice()[e.target as usize].place {
        GPlace::In(block, offset) => uppers.get(&(block, offset)).copied().unwrap_or(0),
        GPlace::Abs(_) | GPlace::External(_) => 0,
    }
}
