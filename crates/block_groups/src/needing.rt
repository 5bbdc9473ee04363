ghost use Rattle.std.specs.Prelude.{◌≡◌, ◌<◌, ◌||◌, ℕ, [], All, length, IfOk, OnOk};
ghost use Rattle.link_model.specs.declared.graph.Edge.{Edge as EdgeSeen};
ghost use Rattle.link_model.specs.Graph.{own_symbols, external_symbols};
ghost use Rattle.link_model.specs.Image.{is_paired};
ghost use Rattle.block_groups.specs.Groups.{block_of, leads_to, needs};
ghost use Rattle.link_model.specs.Sound.{EdgeFits, PlaceFits, Sound};
ghost use Rattle.block_groups.specs.Backwards.{IsClear, IsNoted, is_seen};
ghost use Rattle.block_groups.specs.Keys.{AreKeyed, target_of};
ghost use Rattle.block_groups.specs.Lists.{row};
ghost use Rattle.block_groups.specs.Members.{AreDeps};

use crate::backwards::{Search, come_to_all, hand_out, spread};
use crate::lists::Lists;
use link_model::kinds::{PCREL_LO12_I, PCREL_LO12_S};
use link_model::{Edge, GPlace, Layout, LinkGraph};
use orc_ids::InstId;
use std::alloc::{AllocError, Global};

fn block_of(place: GPlace) -> Option<u32>
    ensures { result ≡ block_of place }
{
    match place {
        GPlace::In(block, _) => Some(block),
        GPlace::Abs(_) | GPlace::External(_) => None,
    }
}

/// Whether an edge leads on to its symbol's block: where the symbol is the unit's own, or its label.
fn leads_on(own: bool, e: &Edge) -> bool
    ensures { result ≡ (own || is_paired e.now.kind) }
{
    own || e.kind == PCREL_LO12_I || e.kind == PCREL_LO12_S
}

/// The block that an edge leads to. `owners` has for each symbol whether the unit itself defines it.
fn lead(g: &LinkGraph, live: &[bool], owners: &[bool], e: &Edge) -> Option<u32>
    requires owners { owners.now ≡ own_symbols g.now.symbols live.now }
    requires there { e.now.target < length g.now.symbols }
    ensures { result ≡ leads_to g.now live.now e.now }
{
    let target = e.target as usize;
    if leads_on(owners[target], e) {
        block_of(g.symbols.as_slice()[target].place)
    } else {
        None
    }
}

fn note_targets(lists: &mut Lists<u32>, edges: &[Edge]) -> Result<(), AllocError>
    requires within { All (λ (e : EdgeSeen). e.target < length lists.old) edges.now }
    requires none { AreKeyed target_of [] (length lists.old) lists.old }
    ensures { OnOk result (AreKeyed target_of edges.now (length lists.old) lists.new) }
{
    for e in edges {
        lists.add(e.target as usize, e.block)?;
    }
    Ok(())
}

/// The blocks that refer to each symbol.
fn referring(alloc: Global, g: &LinkGraph) -> Result<Lists<u32>, AllocError>
    requires { Sound g.now }
    ensures { IfOk result (λ lists. AreKeyed target_of g.now.edges (length g.now.symbols) lists) }
{
    let mut lists = Lists::new(alloc, g.symbols.len())?;
    note_targets(&mut lists, g.edges.as_slice())?;
    Ok(lists)
}

fn note_leads(
    lists: &mut Lists<u32>,
    g: &LinkGraph,
    live: &[bool],
    owners: &[bool],
) -> Result<(), AllocError>
    requires sound { Sound g.now }
    requires owners { owners.now ≡ own_symbols g.now.symbols live.now }
    requires whole { length lists.old ≡ length g.now.blocks }
    requires none { AreKeyed (leads_to g.now live.now) [] (length g.now.blocks) lists.old }
    ensures { OnOk result (AreKeyed (leads_to g.now live.now) g.now.edges (length g.now.blocks) lists.new) }
{
    for e in g.edges.as_slice() {
        if let Some(block) = lead(g, live, owners, e) {
            lists.add(block as usize, e.block)?;
        }
    }
    Ok(())
}

/// The blocks that lead to each block.
fn leading(
    alloc: Global,
    g: &LinkGraph,
    live: &[bool],
    owners: &[bool],
) -> Result<Lists<u32>, AllocError>
    requires sound { Sound g.now }
    requires owners { owners.now ≡ own_symbols g.now.symbols live.now }
    ensures { IfOk result (λ lists. AreKeyed (leads_to g.now live.now) g.now.edges (length g.now.blocks) lists) }
{
    let mut lists = Lists::new(alloc, g.blocks.len())?;
    note_leads(&mut lists, g, live, owners)?;
    Ok(lists)
}

/// Comes to the blocks that need a symbol.
fn seek(
    search: &mut Search,
    g: &LinkGraph,
    live: &[bool],
    leading: &Lists<u32>,
    referring: &Lists<u32>,
    symbol: u32,
) -> Result<(), AllocError>
    requires sound { Sound g.now }
    requires leading { AreKeyed (leads_to g.now live.now) g.now.edges (length g.now.blocks) leading.now }
    requires referring { AreKeyed target_of g.now.edges (length g.now.symbols) referring.now }
    requires there { symbol < length g.now.symbols }
    requires whole { length search.old.seen.items ≡ length g.now.blocks }
    requires clear { IsClear search.old }
    ensures noted { OnOk result (IsNoted search.new) }
    ensures whole { OnOk result (length search.new.seen.items ≡ length g.now.blocks) }
    ensures needing { OnOk result ((b : ℕ) → is_seen search.new b ≡ needs g.now live.now symbol b) }
{
    come_to_all(search, referring.row(symbol as usize))?;
    spread(search, leading)
}

/// Puts each instance that an external is bound to at the end of the lists of the blocks that need it.
fn note_needed(
    lists: &mut Lists<InstId>,
    search: &mut Search,
    g: &LinkGraph,
    live: &[bool],
    leading: &Lists<u32>,
    referring: &Lists<u32>,
    externals: &[u32],
    bound: &[Option<InstId>],
) -> Result<(), AllocError>
    requires sound { Sound g.now }
    requires leading { AreKeyed (leads_to g.now live.now) g.now.edges (length g.now.blocks) leading.now }
    requires referring { AreKeyed target_of g.now.edges (length g.now.symbols) referring.now }
    requires there { All (λ s. s < length g.now.symbols) externals.now }
    requires bound { length bound.now ≡ length externals.now }
    requires whole { length search.old.seen.items ≡ length g.now.blocks }
    requires clear { IsClear search.old }
    requires none { AreDeps g.now live.now [] [] lists.old }
    ensures { OnOk result (AreDeps g.now live.now externals.now bound.now lists.new) }
{
    for k in 0..externals.len() {
        if let Some(instance) = bound[k] {
            seek(search, g, live, leading, referring, externals[k])?;
            hand_out(search, lists, instance)?;
        }
    }
    Ok(())
}

/// What each block depends on.
pub(crate) fn deps_by_block(
    alloc: Global,
    g: &LinkGraph,
    l: &Layout,
    owners: &[bool],
    bound: &[Option<InstId>],
) -> Result<Lists<InstId>, AllocError>
    requires sound { Sound g.now }
    requires externals { l.now.externals ≡ external_symbols g.now l.now.live }
    requires owners { owners.now ≡ own_symbols g.now.symbols l.now.live }
    requires bound { length bound.now ≡ length l.now.externals }
    ensures { IfOk result (λ lists. AreDeps g.now l.now.live l.now.externals bound.now lists) }
{
    let live = l.live.as_slice();
    let leading = leading(alloc, g, live, owners)?;
    let referring = referring(alloc, g)?;
    let mut lists = Lists::new(alloc, g.blocks.len())?;
    let mut seen = Vec::new(alloc);
    seen.resize(g.blocks.len(), false)?;
    let mut search = Search {
        seen,
        found: Vec::new(alloc),
    };
    let externals = l.externals.as_slice();
    note_needed(
        &mut lists,
        &mut search,
        g,
        live,
        &leading,
        &referring,
        externals,
        bound,
    )?;
    Ok(lists)
}
