ghost use Rattle.elf_read.specs.Object.{object_of, Reads};

use crate::build::build;
use crate::error::ElfError;
use crate::file::open;
use crate::names::check_names;
use crate::object::ElfObject;
use crate::overlaps::check_overlaps;
use crate::relocs::check_relocs;
use crate::sections::check_sections;
use crate::symbols::check_symbols;
use crate::table::Table;
use shared_bytes::SharedBytes;
use std::alloc::Global;

/// `read_shared` of a copy of the bytes.
pub fn read_object(alloc: Global, bytes: &[u8]) -> Result<ElfObject, ElfError>
    ensures { Reads result (object_of bytes.now) }
{
    let file = SharedBytes::copy_of(alloc, bytes)?;
    read_shared(alloc, &file)
}

/// The object that a file is, or the first check that it fails. The work is linear in the bytes and in
/// the lengths of the names of non-local symbols, each of which has 4,096 bytes at most; the memory is
/// linear in the bytes. The names, and the contents of a section that has a quarter of the file's bytes
/// or more, are ranges of the file, which lives as long as one of them.
///
/// The checks, in their order: header and section table; the sections; their names; their ranges;
/// the symbols; the relocations.
#[tactic(auto, unfolding(crate::specs::Object::object_of, crate::specs::Object::refusal_of))]
pub fn read_shared(alloc: Global, file: &SharedBytes) -> Result<ElfObject, ElfError>
    ensures { Reads result (object_of file.now) }
{
    let table = Table::new(alloc, open(file.as_slice())?)?;
    check_sections(&table)?;
    check_names(&table)?;
    check_overlaps(alloc, &table)?;
    check_symbols(alloc, &table)?;
    check_relocs(&table)?;
    Ok(build(alloc, file, &table)?)
}
