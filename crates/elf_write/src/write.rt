ghost use Rattle.std.specs.Prelude.{◌≡◌, ◌<◌, ◌^◌, IfOk, OnOk};
ghost use Rattle.elf_write.specs.Files as want;
ghost use Rattle.elf_write.specs.Parts as parts;

use crate::part::Header;
use crate::sections::{put_relas, put_sections, rela_count};
use crate::symtab::{SymtabWriter, local_count, symtab_of};
use crate::writer::Writer;
use elf_read::ElfObject;
use orc_ids::Bytes;
use std::alloc::{AllocError, Global};

const SHT_SYMTAB: u32 = 2;

fn put_symtab(
    writer: &mut Writer,
    strtab: u64,
    locals: u64,
    table: &SymtabWriter,
) -> Result<(), AllocError>
    ensures { OnOk result (writer.new ≡ want.with_part (parts.symtab_part strtab locals table.now) writer.old) }
{
    let header = Header {
        kind: SHT_SYMTAB,
        flags: 0,
        size: table.entries().len() as u64,
        link: strtab,
        info: locals,
        align: 8,
        entry_size: 24,
    };
    writer.put_part(b".symtab", &header, table.entries())
}

/// What stands before the names of sections.
#[tactic(auto, using(crate::proofs::Steps::parts_together), unfolding(crate::specs::Files::parts_of))]
fn put_parts(
    alloc: Global,
    writer: &mut Writer,
    o: &ElfObject,
    symtab: u64,
) -> Result<(), AllocError>
    requires number { symtab ≡ want.symtab_number o.now }
    requires small { symtab < 2 ^ 62 }
    ensures { OnOk result (writer.new ≡ want.with_parts (want.parts_of o.now) writer.old) }
{
    let sections = o.sections.as_slice();
    let symbols = o.symbols.as_slice();
    let table = symtab_of(alloc, symbols)?;
    put_sections(writer, sections)?;
    put_relas(alloc, writer, symtab, sections)?;
    put_symtab(writer, symtab + 1, local_count(symbols) as u64, &table)?;
    writer.put_strings(b".strtab", table.strings())
}

/// The number of the symbol table.
#[tactic(auto, unfolding(crate::specs::Files::symtab_number))]
fn symtab_number(o: &ElfObject) -> u64
    ensures exact { result ≡ want.symtab_number o.now }
    ensures small { result < 2 ^ 62 }
{
    let sections = o.sections.as_slice();
    1 + sections.len() as u64 + rela_count(sections) as u64
}

/// The file of an object. Time and memory are linear in the object.
///
/// What a field of the file can't hold is cut to the field's width: there are objects, of 65,533 sections or
/// more, that no file of this layout has.
#[tactic(auto, unfolding(crate::specs::Files::file_bytes))]
pub fn write_object(alloc: Global, o: &ElfObject) -> Result<Bytes, AllocError>
    ensures { IfOk result (λ bytes. bytes ≡ want.file_bytes o.now) }
{
    let symtab = symtab_number(o);
    let mut writer = Writer::new(alloc)?;
    put_parts(alloc, &mut writer, o, symtab)?;
    writer.put_names()?;
    Ok(Bytes::from_vec(writer.finish(symtab + 2)?))
}
