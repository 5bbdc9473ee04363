//! Relocatable objects: ELF64, little endian, for RISC-V (System V gABI, "Object Files"; RISC-V ELF
//! psABI).
//!
//! Any bytes are one object, or refused by the first check that fails. Contracts see an
//! `ElfObject` as its list of kept sections, each with its relocations, and its list of symbols.
//! `specs/Object.antt` says which object bytes are, and which refusal. Names and large contents are
//! ranges of the file, not copies. Read `shared_bytes` first; what links objects reads them through
//! this crate.
#![tactic(auto)]

mod build;
mod error;
mod fields;
mod file;
mod gabi;
mod header;
mod name_set;
mod names;
mod object;
mod overlaps;
mod read;
mod relocs;
mod sections;
mod spans;
mod string_table;
mod symbols;
mod table;

pub use error::{ElfError, NotBuiltKind};
pub use object::{ElfObject, Reloc, Relocs, Section, Sections, SymPlace, Symbol, Symbols};
pub use read::{read_object, read_shared};
