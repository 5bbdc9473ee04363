//! The link graph of a function's object.
ghost use Rattle.std.specs.Prelude.{◌≡◌, ◌<◌, ◌^◌, ◌∷◌, [], Some, Ok, IfOk};
ghost use Rattle.link_graph.specs.Checks.{graph_of_object};
ghost use Rattle.link_model.specs.Sound.{Sound, IsSized, OffersDiffer};
ghost use Rattle.generated_objects.specs.Graphs.{call_edge, code_block, function_number, graph_calling, linked_graph, lone_graph, named, nameless};
ghost use Rattle.generated_objects.specs.Objects.{generated_object, session_names};

use crate::names::function_name;
use crate::object::{CALL_AT, CODE_SIZE, code};
use crate::rings::next;
use link_model::kinds::CALL_PLT;
use link_model::{Block, Edge, GPlace, GSym, LinkGraph};
use orc_ids::{Items, SymFlags};
use std::alloc::{AllocError, Global};

/// Exported, strong, and of no type.
const FLAGS: SymFlags = SymFlags {
    weak: false,
    common: false,
    exported: true,
    callable: false,
};

/// Symbol 0.
fn nameless() -> GSym
    ensures { result ≡ nameless }
{
    GSym {
        name: None,
        place: GPlace::Abs(0),
        flags: FLAGS,
        global: false,
    }
}

/// The symbol of function `k`.
fn named(k: u32, place: GPlace) -> GSym
    requires { k < 2 ^ 31 }
    ensures { result ≡ named (Some (function_number k)) place }
{
    GSym {
        name: Some(function_name(k)),
        place,
        flags: FLAGS,
        global: true,
    }
}

fn blocks(alloc: Global, k: u32) -> Result<Vec<Block>, AllocError>
    ensures { IfOk result (λ blocks. blocks.items ≡ code_block k ∷ []) }
{
    let mut blocks = Vec::new(alloc);
    blocks.push(Block {
        bytes: code(alloc, k)?,
        size: CODE_SIZE,
        align: 4,
    })?;
    Ok(blocks)
}

fn edges(alloc: Global, target: u32) -> Result<Vec<Edge>, AllocError>
    ensures { IfOk result (λ edges. edges.items ≡ call_edge target ∷ []) }
{
    let mut edges = Vec::new(alloc);
    edges.push(Edge {
        block: 0,
        offset: CALL_AT,
        kind: CALL_PLT,
        target,
        addend: 0,
    })?;
    Ok(edges)
}

/// A graph of these.
fn graph(alloc: Global, k: u32, symbols: Vec<GSym>, called: u32) -> Result<LinkGraph, AllocError>
    ensures { IfOk result (λ g. g ≡ record { blocks = code_block k ∷ []; symbols = symbols.items; edges = call_edge called ∷ [] }) }
{
    Ok(LinkGraph {
        blocks: Items::from_vec(blocks(alloc, k)?),
        symbols: Items::from_vec(symbols),
        edges: Items::from_vec(edges(alloc, called)?),
    })
}

/// The graph of function `k`, which calls itself.
fn lone_graph(alloc: Global, k: u32) -> Result<LinkGraph, AllocError>
    requires { k < 2 ^ 31 }
    ensures { IfOk result (λ g. g ≡ lone_graph (Some (function_number k)) k) }
{
    let mut symbols = Vec::with_capacity(alloc, 2)?;
    symbols.push(nameless())?;
    symbols.push(named(k, GPlace::In(0, 0)))?;
    graph(alloc, k, symbols, 1)
}

/// The graph of function `k`, which calls one of another object.
fn linked_graph(alloc: Global, callee: u32, k: u32) -> Result<LinkGraph, AllocError>
    requires own { k < 2 ^ 31 }
    requires other { callee < 2 ^ 31 }
    ensures { IfOk result (λ g. g ≡ linked_graph (Some (function_number k)) (Some (function_number callee)) k) }
{
    let mut symbols = Vec::with_capacity(alloc, 3)?;
    symbols.push(nameless())?;
    symbols.push(named(k, GPlace::In(0, 0)))?;
    symbols.push(named(callee, GPlace::External(false)))?;
    graph(alloc, k, symbols, 2)
}

/// The graph of function `k`, which calls this one.
fn graph_calling(alloc: Global, callee: u32, k: u32) -> Result<LinkGraph, AllocError>
    requires own { k < 2 ^ 31 }
    requires other { callee < 2 ^ 31 }
    ensures { IfOk result (λ g. g ≡ graph_calling callee k) }
{
    if callee == k {
        lone_graph(alloc, k)
    } else {
        linked_graph(alloc, callee, k)
    }
}

/// The link graph of the object of function `k` of `n`, by the numbers of a session's texts. It is made
/// without the object.
#[tactic(auto, using(crate::proofs::Graphs::graph_exact))]
pub fn graph_of_function(alloc: Global, n: u32, k: u32) -> Result<LinkGraph, AllocError>
    requires below { k < n }
    requires few { n < 2 ^ 31 }
    ensures exact { IfOk result (λ g. graph_of_object (session_names n) (generated_object n k) ≡ Ok g) }
    ensures sound { IfOk result (λ g. Sound g) }
    ensures sized { IfOk result (λ g. IsSized g) }
    ensures offers { IfOk result (λ g. OffersDiffer g) }
{
    graph_calling(alloc, next(n, k), k)
}
