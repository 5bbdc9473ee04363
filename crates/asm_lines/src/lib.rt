//! The lines of an assembly text for RV64IM: which bytes are a label and a statement, by themselves
//! (GNU as, "Syntax" and "Pseudo Ops"; RISC-V Assembly Programmer's Manual).
//!
//! `label_of_line` and `statement_of_line` read one line. Contracts see what a line is by
//! `specs/Lines.antt`: a label, or why it is none, and a `Statement`, or the first of the reasons word,
//! operands, number and name that refuses it, and for a section the reason section. Instructions are
//! those of the table of `rv_insn`, each within the range of its word. What depends on other lines,
//! such as whether a label is new, is left to the caller. Read `rv_insn` first.
#![tactic(auto)]

mod data;
mod directives;
mod fence;
mod immediates;
mod insns;
mod instructions;
mod line;
mod name;
mod numbers;
mod operands;
mod pieces;
mod pseudo;
mod quotes;
mod registers;
mod statement;
mod values;
mod words;

pub use line::{label_of_line, statement_of_line};
pub use name::Name;
pub use statement::{AsmWhy, Fixup, Item, LineError, SectionKind, Statement};
pub use values::Reference;
