//! The fixups of a unit: the raw bytes of a link graph with every edge applied, in file order.
//!
//! It states the RISC-V ELF psABI's "Relocations" by the definitions of `link_model`: the result of
//! `fix` is the image of the unit, and its refusal names the first edge whose value is out of its
//! range. Contracts see an image as the list of its bytes. What edges reach of each symbol (its address,
//! its GOT cell and its stub) stands in three tables by symbol, and the values of upper parts in one by
//! place, so that the work is linear in the graph. Read `reloc_table` for a single edge, and
//! `session_units` for the unit that the image is of.
#![tactic(auto)]

mod alone;
mod apply;
mod cells;
mod image;
mod place;
mod raw;
mod targets;
mod upper;

pub use alone::{closed_graph_is_alone, is_alone};
pub use apply::FixError;
pub use image::fix;
