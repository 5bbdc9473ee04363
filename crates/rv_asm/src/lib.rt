//! The assembler: the object that a text is, or its first bad line (GNU as; RISC-V Assembly Programmer's
//! Manual; RISC-V ELF psABI).
//!
//! `assemble` answers by the definitions of `specs/Objects`: all lines are read (`asm_text`), then
//! branches to local labels of their section are filled in, by all labels of the text, and what the lines
//! said becomes an object of `elf_read`. `specs/Symbols` has its symbol table, `specs/Sections` its
//! sections, whose bytes hold the words of `rv_insn`, and `specs/Branches` what is filled in, and which
//! branch can't go so far. The object is canonical, as `elf_write` defines it. Read `asm_text` first;
//! `elf_write` makes the file.
#![tactic(auto)]

mod contents;
mod error;
mod far;
mod filling;
mod laws;
mod object;
mod order;
mod relocs;
mod sections;
mod symbols;

pub use error::AsmError;
pub use laws::have_one_object;
pub use object::assemble;
