//! The relocation kinds as a program: the one table of them, the value of a relocation, and its write.
//!
//! It states the RISC-V ELF psABI's "Relocations" by the definitions of `link_model`: `value` is the
//! value of an edge, and `patch` its write or the refusal of a value out of range. What `patch` writes
//! in an instruction format is what the immediates of `orc_words` read back. No call takes memory.
//! Read `unit_fixups` next for the edges of a whole graph.
#![tactic(auto)]

mod parts;
mod patches;
mod table;
mod values;

pub use parts::{low_bits, upper_part};
pub use patches::{OutOfRange, patch, patch_at};
pub use table::{find, rule};
pub use values::value;
