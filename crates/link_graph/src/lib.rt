//! From an object to its link graph (JITLink: `LinkGraph`): kept sections and common symbols as
//! blocks, symbols with interned names, and relocations as edges.
//!
//! It states what the System V gABI's "Symbol Table" and the RISC-V ELF psABI's "Relocations" make of
//! an object, by `specs/Object.antt`, and by `specs/Checks.antt` the first check that an object fails.
//! Contracts see a graph as its lists of blocks, symbols and edges. The work is linear in the object.
//! Read `elf_read` for the object and `link_model` for what the graph means; `got_stubs` lays it out
//! next, and `unit_fixups` applies its edges.
#![tactic(auto)]

mod blocks;
mod cuts;
mod edges;
mod error;
mod graph;
mod limits;
mod pairs;
mod relocs;
mod symbols;

pub use cuts::BOUNDARY_LIMIT;
pub use error::GraphError;
pub use graph::graph_of;
pub use limits::{BLOCK_LIMIT, BYTE_LIMIT, EDGE_LIMIT, SYMBOL_LIMIT};
pub use link_model::{Block, Edge, GPlace, GSym, LinkGraph};
