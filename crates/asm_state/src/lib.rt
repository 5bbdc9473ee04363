//! What the lines of an assembly text have said so far: its symbols in order of first mention, and its
//! sections in the making (GNU as, "Symbols", "Sections and Relocation").
//!
//! Contracts see a `SymbolBook` and a `SectionBook` as the records of `specs/Symbols` and
//! `specs/Sections`. A section in the making has the bytes of its data, with zeros where an instruction
//! stands, and beside them its instructions and relocations by their places. Names are found by a hash,
//! and numbers count from 0. Read `asm_lines` first; `rv_asm` makes the object of them.
#![tactic(auto)]

mod book;
mod key;
mod marks;
mod reach;
mod section;
mod symbols;
mod table;

pub use book::SectionBook;
pub use marks::{Definition, Marks};
pub use reach::{distance_to, is_far, reaches};
pub use section::{Code, Making, Patch, Target, is_bss};
pub use symbols::SymbolBook;
