ghost use Rattle.std.specs.Prelude.{◌≡◌, ◌<◌, ◌||◌, ◌==◌, nat_le, IsTrue, IfOk, map, None};
ghost use Rattle.elf_read.specs.Choice.{Agrees, first_below, any_below};
ghost use Rattle.elf_read.specs.File.{section, lies_in};
ghost use Rattle.elf_read.specs.Sections.{is_kept, section_refusal};
ghost use Rattle.elf_read.specs.Symbols as want;

use crate::error::ElfError;
use crate::fields::{SectionHeader, read_reloc};
use crate::gabi::ENTRY_SIZE;
use crate::object::{Reloc, Relocs};
use crate::symbols::symbol_count;
use crate::table::Table;
use std::alloc::{AllocError, Global};

/// Relocation k of a section of relocations.
#[tactic(auto, unfolding(crate::specs::Symbols::reloc))]
fn reloc(table: &Table, section: &SectionHeader, k: u64) -> Reloc
    requires inside { IsTrue (lies_in table.now.bytes section.now.offset section.now.size) }
    requires number { k < want.reloc_count section.now }
    ensures { result ≡ want.reloc table.now section.now k }
{
    read_reloc(table.bytes(), (section.offset + ENTRY_SIZE * k) as usize)
}

fn is_no_symbol(count: u64, number: u32) -> bool
    ensures { result ≡ (nat_le count number || number == 0xffffffff) }
{
    count <= number as u64 || number == u32::MAX
}

/// Whether a relocation of the section names a symbol that is not there.
fn names_no_symbol(table: &Table, section: &SectionHeader) -> bool
    requires { IsTrue (lies_in table.now.bytes section.now.offset section.now.size) }
    ensures { result ≡ any_below (want.reloc_count section.now) (λ k. want.is_no_symbol table.now (want.reloc table.now section.now k).symbol) }
{
    let count = symbol_count(table);
    for k in 0..section.size / ENTRY_SIZE {
        if is_no_symbol(count, reloc(table, section, k).symbol) {
            return true;
        }
    }
    false
}

#[tactic(auto, unfolding(crate::specs::Symbols::relocs_refusal))]
fn check_relocs_of(table: &Table, i: u32) -> Result<(), ElfError>
    requires sections { first_below table.now.count (section_refusal table.now) ≡ None }
    requires number { i < table.now.count }
    ensures { Agrees result (want.relocs_refusal table.now i) }
{
    if !table.section(i).is_kept() {
        return Ok(());
    }
    match table.rela(i) {
        None => Ok(()),
        Some(r) => {
            if names_no_symbol(table, &table.section(r)) {
                Err(ElfError::BadLink(r))
            } else {
                Ok(())
            }
        }
    }
}

/// The first kept section with a relocation that names a symbol that is not there.
pub(crate) fn check_relocs(table: &Table) -> Result<(), ElfError>
    requires { first_below table.now.count (section_refusal table.now) ≡ None }
    ensures { Agrees result (first_below table.now.count (want.relocs_refusal table.now)) }
{
    for i in 0..table.count() {
        check_relocs_of(table, i)?;
    }
    Ok(())
}

fn read_relocs(alloc: Global, table: &Table, section: &SectionHeader) -> Result<Relocs, AllocError>
    requires { IsTrue (lies_in table.now.bytes section.now.offset section.now.size) }
    ensures { IfOk result (λ relocs. relocs ≡ map (want.reloc table.now section.now) (want.numbers (want.reloc_count section.now))) }
{
    let count = section.size / ENTRY_SIZE;
    let mut items = Vec::with_capacity(alloc, count as usize)?;
    for k in 0..count {
        items.push(reloc(table, section, k))?;
    }
    Ok(Relocs::from_vec(items))
}

/// The relocations of a kept section.
#[tactic(auto, unfolding(crate::specs::Symbols::relocs_in))]
pub(crate) fn relocs_of(alloc: Global, table: &Table, i: u32) -> Result<Relocs, AllocError>
    requires sections { first_below table.now.count (section_refusal table.now) ≡ None }
    requires number { i < table.now.count }
    requires kept { IsTrue (is_kept (section table.now i)) }
    ensures { IfOk result (λ relocs. relocs ≡ want.relocs_in table.now i) }
{
    match table.rela(i) {
        None => Ok(Relocs::new(alloc)),
        Some(r) => read_relocs(alloc, table, &table.section(r)),
    }
}
