//! What the lines of an assembly text say, one after the other, up to the first that is refused (GNU as;
//! RISC-V Assembly Programmer's Manual).
//!
//! Contracts see an `Assembler` as the record `Known` of `specs/Known`: the symbols, the sections in the
//! making, and whether the linker may relax. `specs/Refusals` has which lines are refused for what stands
//! before them, `specs/Said` what a good line says, and `specs/Texts` the lines of a text. Branches that
//! are filled in are judged later, when all labels are known. Read `asm_lines` first for what one line is
//! by itself, and `asm_state` for symbols and sections.
#![tactic(auto)]

mod assembler;
mod items;
mod lines;
mod padding;
mod reading;
mod refusals;
mod said;
mod statements;
mod texts;

pub use assembler::Assembler;
pub use reading::{BadLine, Reading, read_text};
