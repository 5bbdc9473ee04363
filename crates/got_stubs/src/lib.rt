//! Where the parts of a unit lie: its blocks, then the GOT cells, then the stubs of calls to other
//! units.
//!
//! It states the RISC-V ELF psABI's "Global Offset Table" and "Procedure Linkage Table" by the
//! definitions of `link_model`: the result of `synthesise` is the layout of the graph. A unit is
//! smaller than 128 MiB, so no sum here passes 64 bits. The work is linear in the graph: one pass
//! over the edges marks the symbols that they refer to, and then one goes over the symbols for each
//! of the three lists. A `Plan` is what is prepared of a graph whatever names are live. Read
//! `unit_fixups` next for the image at a base.
#![tactic(auto)]

mod blocks;
mod layout;
mod marks;
mod owners;
mod parts;
mod plan;
mod tables;
mod turns;
mod walks;

pub use layout::synthesise;
pub use owners::owners_of;
pub use plan::{Plan, plan_of};
