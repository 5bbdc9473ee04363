//! What a caller of `link_graph` has of its contract: the function here is one call, and its clauses are
//! what the call promises. Its wrong bodies turn what came back, by a list or a name, and the gate sees
//! each refused; so the contract of a crate whose own wrong bodies take too long for the gate is tried
//! there all the same.

ghost use Rattle.link_graph.specs.Checks.{graph_of_object, Makes};
ghost use Rattle.link_graph.specs.Read.{IsRead, LeavesNames};
ghost use Rattle.std.specs.Prelude.{IfErr};

use elf_read::ElfObject;
use link_graph::{GraphError, LinkGraph, graph_of};
use orc_ids::Items;
use orc_names::Names;
use std::alloc::Global;

/// An object's graph, or the first check that it fails, as they came back.
pub fn made(alloc: Global, o: &ElfObject, names: &mut Names) -> Result<LinkGraph, GraphError>
    requires { IsRead o.now }
    ensures exact { Makes result (graph_of_object names.new o.now) }
    ensures refused { IfErr result (λ why. LeavesNames why names.old names.new) }
{
    let graph = graph_of(alloc, o, names)?;
    Ok(LinkGraph {
        blocks: graph.blocks,
        symbols: graph.symbols,
        edges: graph.edges,
    })
}
