//! The plain definitions of linking, in the words of the RISC-V ELF psABI: what a link graph is,
//! how a unit is laid out, what each edge's value is and which bits it writes, and the image of a
//! unit as one fold of writes; and what every graph of an object keeps.
//!
//! Contracts see a graph as its lists of blocks, symbols and edges, and the bytes of a unit as a
//! function from place to byte. `link_graph` makes graphs of objects, `got_stubs` lays them out and
//! `unit_fixups` applies their edges, each by these definitions.
#![tactic(auto)]

mod graph;
pub mod kinds;

pub use graph::{Block, Edge, GPlace, GSym, Layout, LinkGraph};
pub use kinds::{Form, Formula, Rule, Span};
