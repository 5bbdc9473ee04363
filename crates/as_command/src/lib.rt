//! `orc as`: the file that the words name is read, its text assembled, and the object's file laid out. What is
//! found is that file and an answer; nothing is written here.
//!
//! `find_assembly` keeps `IsFound` (`specs/Found`). Read `rv_asm` for the assembler, and `elf_write` for the file.
#![tactic(auto)]

mod assembly;
mod laws;

pub use assembly::{AssemblyFound, find_assembly};
pub use laws::as_answers_are_kept;
