ghost use Rattle.std.specs.Prelude.{◌≡◌, length, false, Some, None, IfOk, IfErr, OnOk, if◌then◌else◌};
ghost use Rattle.orc_names.specs.Numbers.{KeepsNumbers};
ghost use Rattle.link_model.specs.Sound.{Sound, IsSized, OffersDiffer};
ghost use Rattle.link_graph.specs.Object.{blocks_of};
ghost use Rattle.link_graph.specs.Padding.{all_cuts, trimmed};
ghost use Rattle.link_graph.specs.Checks.{or_else, is_too_large, symbol_error, relocs_error, error_among, graph_of_object, Makes};
ghost use Rattle.link_graph.specs.Parts.{IsSmall, Refuses, failed_check, trimmed_places, trimmed_edges, place_error};
ghost use Rattle.link_graph.specs.Read.{IsRead, AreNamed, AddsNamesOf, LeavesNames};

use crate::blocks::all_blocks;
use crate::cuts::{Cuts, all_cuts};
use crate::edges::all_edges;
use crate::error::GraphError;
use crate::limits::is_too_large;
use crate::pairs::pairs_refused;
use crate::relocs::{relocs_refused, symbols_refused};
use crate::symbols::{all_places, all_symbols};
use elf_read::ElfObject;
use link_model::{Block, Edge, LinkGraph};
use orc_ids::Items;
use orc_names::Names;
use std::alloc::{AllocError, Global};

/// What a graph has beside its symbols, and what is deleted of each section.
#[derive(Drop)]
struct Parts {
    blocks: Vec<Block>,
    edges: Vec<Edge>,
    cuts: Vec<Cuts>,
}

/// What is deleted of each section, if the object is not too large.
fn sized_cuts(alloc: Global, o: &ElfObject) -> Result<Vec<Cuts>, GraphError>
    ensures cuts { IfOk result (λ cuts. cuts.items ≡ all_cuts o.now.sections) }
    ensures small { OnOk result (IsSmall o.now) }
    ensures fits { OnOk result (is_too_large o.now ≡ false) }
    ensures over { IfErr result (λ why. Refuses why (if is_too_large o.now then Some GraphError.TooMany else None)) }
{
    if is_too_large(o) {
        return Err(GraphError::TooMany);
    }
    Ok(all_cuts(alloc, o.sections.as_slice())?)
}

/// The first symbol that can't be linked, or else the first such relocation.
fn item_refused(o: &ElfObject, cuts: &[Cuts]) -> Option<GraphError>
    requires small { IsSmall o.now }
    requires same { cuts.now ≡ all_cuts o.now.sections }
    ensures { result ≡ or_else (symbol_error 0 o.now.symbols) (relocs_error o.now.symbols 0 o.now.sections) }
{
    let refused = symbols_refused(o.symbols.as_slice());
    if refused.is_some() {
        return refused;
    }
    relocs_refused(o.symbols.as_slice(), o.sections.as_slice(), cuts)
}

/// The first relocation that needs a pair and has none.
fn pair_refused(
    alloc: Global,
    o: &ElfObject,
    cuts: &[Cuts],
    edges: &[Edge],
) -> Result<Option<GraphError>, AllocError>
    requires small { IsSmall o.now }
    requires same { cuts.now ≡ all_cuts o.now.sections }
    ensures { IfOk result (λ refused. refused ≡ error_among (place_error (trimmed_places o.now) edges.now) 0 o.now.sections) }
{
    let first_common = o.sections.as_slice().len() as u32;
    let places = all_places(alloc, o.symbols.as_slice(), first_common, cuts)?;
    pairs_refused(alloc, &places, edges, o.sections.as_slice())
}

/// The blocks and edges of an object after deletion, if it passes all checks.
fn checked_parts(alloc: Global, o: &ElfObject) -> Result<Parts, GraphError>
    ensures blocks { IfOk result (λ parts. parts.blocks.items ≡ blocks_of (trimmed o.now)) }
    ensures edges { IfOk result (λ parts. parts.edges.items ≡ trimmed_edges 0 o.now.sections) }
    ensures cuts { IfOk result (λ parts. parts.cuts.items ≡ all_cuts o.now.sections) }
    ensures small { OnOk result (IsSmall o.now) }
    ensures passed { OnOk result (failed_check o.now ≡ None) }
    ensures refused { IfErr result (λ why. Refuses why (failed_check o.now)) }
{
    let cuts = sized_cuts(alloc, o)?;
    if let Some(why) = item_refused(o, &cuts) {
        return Err(why);
    }
    let edges = all_edges(alloc, o.sections.as_slice(), &cuts)?;
    if let Some(why) = pair_refused(alloc, o, &cuts, &edges)? {
        return Err(why);
    }
    let blocks = all_blocks(alloc, o, &cuts)?;
    Ok(Parts {
        blocks,
        edges,
        cuts,
    })
}

/// The graph of an object, without the padding that its ALIGNs don't need, or the first check that the
/// object fails. The work is linear in the object but for the places, which are moved in a time that is
/// logarithmic in the number of a section's ALIGNs. Places in refusals are those of the file.
///
/// The names of the symbols that other units may see are interned once all checks are passed. Where
/// memory runs out, some of them may have been.
pub fn graph_of(alloc: Global, o: &ElfObject, names: &mut Names) -> Result<LinkGraph, GraphError>
    requires { IsRead o.now }
    ensures exact { Makes result (graph_of_object names.new o.now) }
    ensures sound { IfOk result (λ g. Sound g) }
    ensures sized { IfOk result (λ g. IsSized g) }
    ensures offers { IfOk result (λ g. OffersDiffer g) }
    ensures named { OnOk result (AreNamed names.new o.now.symbols) }
    ensures only { AddsNamesOf o.now.symbols names.old names.new }
    ensures older { KeepsNumbers names.old names.new }
    ensures refused { IfErr result (λ why. LeavesNames why names.old names.new) }
{
    let Parts {
        blocks,
        edges,
        cuts,
    } = checked_parts(alloc, o)?;
    let first_common = o.sections.as_slice().len() as u32;
    let symbols = all_symbols(alloc, names, o.symbols.as_slice(), first_common, &cuts)?;
    Ok(LinkGraph {
        blocks: Items::from_vec(blocks),
        symbols: Items::from_vec(symbols),
        edges: Items::from_vec(edges),
    })
}
