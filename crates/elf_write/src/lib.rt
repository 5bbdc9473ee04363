//! The file of an object, in one layout: the file header, the sections' bytes, a section of relocations for
//! each section that has some, the symbols, the names, and the section table (System V gABI, "Object
//! Files").
//!
//! `write_object` gives the bytes of `specs/Files`, whose parts are those of `specs/Parts`: each is a name, a
//! header and bytes, and stands at the next multiple of eight. `specs/Tables` has the entries of symbols and
//! relocations, `specs/Bytes` numbers and string tables. `specs/Canonical` says which objects such a file
//! holds whole. Read `elf_read` first, which reads such files.
#![tactic(auto)]

mod numbers;
mod part;
mod sections;
mod symtab;
mod write;
mod writer;

pub use write::write_object;
