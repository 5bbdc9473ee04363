//! What is written is read: the bytes of a canonical object's file are that object.
//!
//! The law is the contract of a function with an empty body; there is no code here. `specs/Reading` has it:
//! `object_of`, by which `read_object` of `elf_read` answers, gives back the object of which `write_object` of
//! `elf_write` made the bytes. The objects are those that `Canonical` of `elf_write` allows, and the file is
//! shorter than 4 GiB, since places of names have 32 bits. Read `elf_write` first.
//!
//! The proofs go the way of the reader: which sections the file has (`InFile`), the tables that it finds
//! (`Found`), the symbols, sections and relocations that it reads (`SymbolTable`, `ReadSections`), and that no
//! check refuses them (`SectionChecks`, `Overlaps`, `Distinct`, `SymbolChecks`).
#![tactic(auto)]

mod laws;
mod places;

pub use laws::written_is_read;
pub use places::parts_are_held;
