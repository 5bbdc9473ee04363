ghost use Rattle.std.specs.Prelude.{◌≡◌, ◌<◌};
ghost use Rattle.elf_read.specs.Choice.{Agrees, first_below};
ghost use Rattle.elf_read.specs.File.{section};
ghost use Rattle.elf_read.specs.Sections.{is_at, symtab, is_used, symtab_refusal, kept_rela_refusal, rela_refusal, section_refusal};

use crate::error::ElfError;
use crate::fields::SectionHeader;
use crate::file::{lies_inside, too_short};
use crate::gabi::{ENTRY_SIZE, SHT_NOBITS, SHT_RELA, SHT_STRTAB, SHT_SYMTAB};
use crate::header::is_power;
use crate::table::Table;

/// Whether a number is the one that is there.
fn is_number(place: Option<u32>, i: u32) -> bool
    ensures { result ≡ is_at place i }
{
    match place {
        None => false,
        Some(k) => k == i,
    }
}

/// The header of the symbol table; of no section where there is none.
#[tactic(auto, unfolding(crate::specs::Sections::symtab))]
pub(crate) fn symtab_header(table: &Table) -> SectionHeader
    ensures { result ≡ symtab table.now }
{
    table.section(table.symtab().unwrap_or(0))
}

/// Whether the object is made of the bytes of section i.
#[tactic(auto, unfolding(crate::specs::Sections::is_used))]
pub(crate) fn is_used_section(table: &Table, i: u32) -> bool
    ensures { result ≡ is_used table.now i }
{
    let section = table.section(i);
    section.is_kept() && section.kind != SHT_NOBITS
        || section.kind == SHT_SYMTAB
        || i == symtab_header(table).link && section.kind == SHT_STRTAB
        || i == table.names()
        || section.kind == SHT_RELA && table.section(section.info).is_kept()
}

#[tactic(auto, unfolding(crate::specs::Sections::symtab_refusal))]
fn check_symtab(table: &Table, i: u32) -> Result<(), ElfError>
    ensures { Agrees result (symtab_refusal table.now i) }
{
    let section = table.section(i);
    if !is_number(table.symtab(), i)
        || section.entry_size != ENTRY_SIZE
        || section.size == 0
        || section.size % ENTRY_SIZE != 0
    {
        return Err(ElfError::BadTable(i));
    }
    if table.section(section.link).kind != SHT_STRTAB {
        return Err(ElfError::BadLink(i));
    }
    Ok(())
}

#[tactic(auto, unfolding(crate::specs::Sections::kept_rela_refusal))]
fn check_kept_rela(table: &Table, i: u32) -> Result<(), ElfError>
    requires { (section table.now i).info < table.now.count }
    ensures { Agrees result (kept_rela_refusal table.now i) }
{
    let section = table.section(i);
    if !is_number(table.rela(section.info), i) || !is_number(table.symtab(), section.link) {
        return Err(ElfError::BadLink(i));
    }
    if section.entry_size != ENTRY_SIZE || section.size % ENTRY_SIZE != 0 {
        return Err(ElfError::BadTable(i));
    }
    Ok(())
}

#[tactic(auto, unfolding(crate::specs::Sections::rela_refusal))]
fn check_rela(table: &Table, i: u32) -> Result<(), ElfError>
    ensures { Agrees result (rela_refusal table.now i) }
{
    let section = table.section(i);
    if table.count() <= section.info {
        return Err(ElfError::BadLink(i));
    }
    if table.section(section.info).is_kept() {
        check_kept_rela(table, i)
    } else {
        Ok(())
    }
}

#[tactic(auto, unfolding(crate::specs::Sections::section_refusal))]
fn check_section(table: &Table, i: u32) -> Result<(), ElfError>
    ensures { Agrees result (section_refusal table.now i) }
{
    let section = table.section(i);
    section.check_kind()?;
    if section.is_kept() && section.align != 0 && !is_power(section.align) {
        return Err(ElfError::BadTable(i));
    }
    if section.kind == SHT_SYMTAB {
        check_symtab(table, i)?;
    }
    if section.kind == SHT_RELA {
        check_rela(table, i)?;
    }
    let bytes = table.bytes();
    if is_used_section(table, i) && !lies_inside(bytes, section.offset, section.size) {
        return Err(too_short(bytes, section.offset));
    }
    Ok(())
}

/// The first section whose type, flags, links, alignment, entries or range are wrong.
pub(crate) fn check_sections(table: &Table) -> Result<(), ElfError>
    ensures { Agrees result (first_below table.now.count (section_refusal table.now)) }
{
    for i in 0..table.count() {
        check_section(table, i)?;
    }
    Ok(())
}
