ghost use Rattle.std.specs.Prelude.{◌≡◌, ◌<◌, ◌≤◌, ◌==◌, [], IsTrue, IfOk, map, unwrap_or, if◌then◌else◌, None};
ghost use Rattle.elf_read.specs.Choice.{first_below};
ghost use Rattle.elf_read.specs.File.{section, lies_in, contents};
ghost use Rattle.elf_read.specs.Gabi.{sht_nobits};
ghost use Rattle.elf_read.specs.Index.{section_strings, symbol_strings};
ghost use Rattle.elf_read.specs.Object.{section_in, object_in};
ghost use Rattle.elf_read.specs.Sections.{is_kept, symtab, section_refusal};
ghost use Rattle.elf_read.specs.Sections as want;
ghost use Rattle.elf_read.specs.Symbols as symbol;
ghost use Rattle.elf_read.specs.Symbols.{numbers, kept_below, symbol_count, entry, symbol_zero, symbol_in, place_of};

use crate::fields::{SectionHeader, SymbolEntry};
use crate::gabi::{SHN_ABS, SHN_COMMON, SHN_UNDEF, SHT_NOBITS};
use crate::object::{ElfObject, Section, Sections, SymPlace, Symbol, Symbols};
use crate::relocs::relocs_of;
use crate::string_table::section_bytes;
use crate::symbols::{name_of, symbol_entry, symbol_total};
use crate::table::Table;
use shared_bytes::SharedBytes;
use std::alloc::{AllocError, Global};

/// The name of a section; empty where it is not in the name table.
#[tactic(auto, unfolding(crate::specs::Sections::section_name))]
fn section_name(table: &Table, names: &SharedBytes, i: u32) -> Result<SharedBytes, AllocError>
    requires { names.now ≡ section_strings table.now }
    ensures { IfOk result (λ name. name ≡ unwrap_or (want.section_name table.now i) []) }
{
    match table.section_name(i) {
        None => Ok(SharedBytes::empty()),
        Some(text) => names.range(table.section(i).name as usize, text.len()),
    }
}

/// The bytes of a section, as far as they lie in the file, as a range of the file.
#[tactic(auto, using(crate::proofs::Contents::inside, crate::proofs::Contents::same_range))]
fn contents_in(file: &SharedBytes, section: &SectionHeader) -> Result<SharedBytes, AllocError>
    ensures { IfOk result (λ bytes. bytes ≡ contents file.now section.now) }
{
    let start = section.offset.min(file.len() as u64) as usize;
    file.range(start, section_bytes(file.as_slice(), section).len())
}

/// The contents of a section with less than this part of the file's bytes are copied, so that they
/// don't keep the file.
const SHARED_PART: usize = 4;

/// The bytes of a section, as far as they lie in the file.
fn shared_or_copied(
    alloc: Global,
    file: &SharedBytes,
    section: &SectionHeader,
) -> Result<SharedBytes, AllocError>
    ensures { IfOk result (λ bytes. bytes ≡ contents file.now section.now) }
{
    let bytes = section_bytes(file.as_slice(), section);
    if bytes.len() < file.len() / SHARED_PART {
        return SharedBytes::copy_of(alloc, bytes);
    }
    contents_in(file, section)
}

/// The bytes that a section has in the file.
fn bytes_of(
    alloc: Global,
    file: &SharedBytes,
    section: &SectionHeader,
) -> Result<SharedBytes, AllocError>
    ensures { IfOk result (λ bytes. bytes ≡ (if section.now.kind == sht_nobits then [] else contents file.now section.now)) }
{
    if section.kind == SHT_NOBITS {
        return Ok(SharedBytes::empty());
    }
    shared_or_copied(alloc, file, section)
}

/// An alignment of 0 means none, as 1 does.
fn align_of(section: &SectionHeader) -> u64
    ensures { result ≡ (if section.now.align == 0 then 1 else section.now.align) }
{
    if section.align == 0 { 1 } else { section.align }
}

#[tactic(auto, unfolding(crate::specs::Object::section_in))]
fn build_section(
    alloc: Global,
    file: &SharedBytes,
    table: &Table,
    i: u32,
    names: &SharedBytes,
) -> Result<Section, AllocError>
    requires file { file.now ≡ table.now.bytes }
    requires names { names.now ≡ section_strings table.now }
    requires sections { first_below table.now.count (section_refusal table.now) ≡ None }
    requires number { i < table.now.count }
    requires kept { IsTrue (is_kept (section table.now i)) }
    ensures { IfOk result (λ s. s ≡ section_in table.now i) }
{
    let section = table.section(i);
    Ok(Section {
        name: section_name(table, names, i)?,
        kind: section.kind,
        flags: section.flags,
        align: align_of(&section),
        size: section.size,
        bytes: bytes_of(alloc, file, &section)?,
        relocs: relocs_of(alloc, table, i)?,
    })
}

/// The table of the sections' names.
#[tactic(auto, unfolding(crate::specs::Index::section_strings))]
fn section_name_table(file: &SharedBytes, table: &Table) -> Result<SharedBytes, AllocError>
    requires { file.now ≡ table.now.bytes }
    ensures { IfOk result (λ names. names ≡ section_strings table.now) }
{
    contents_in(file, &table.section(table.names()))
}

fn build_sections(alloc: Global, file: &SharedBytes, table: &Table) -> Result<Sections, AllocError>
    requires file { file.now ≡ table.now.bytes }
    requires sections { first_below table.now.count (section_refusal table.now) ≡ None }
    ensures { IfOk result (λ sections. sections ≡ map (section_in table.now) (kept_below table.now table.now.count)) }
{
    let names = section_name_table(file, table)?;
    let mut items = Vec::new(alloc);
    for i in 0..table.count() {
        if table.section(i).is_kept() {
            items.push(build_section(alloc, file, table, i, &names)?)?;
        }
    }
    Ok(Sections::from_vec(items))
}

/// Where a symbol lies.
#[tactic(auto, unfolding(crate::specs::Symbols::place_of))]
fn place_of_symbol(table: &Table, entry: &SymbolEntry) -> SymPlace
    ensures { result ≡ place_of table.now entry.now }
{
    if entry.section == SHN_UNDEF {
        return SymPlace::Undef;
    }
    if entry.section == SHN_ABS {
        return SymPlace::Abs;
    }
    if entry.section == SHN_COMMON {
        return SymPlace::Common;
    }
    let number = entry.section as u32;
    if table.section(number).is_kept() {
        SymPlace::In(table.kept_before(number))
    } else {
        SymPlace::Passed
    }
}

/// Symbol 0 is the empty, absolute 0.
fn build_zero() -> Symbol
    ensures { result ≡ symbol_zero }
{
    Symbol {
        name: SharedBytes::empty(),
        bind: 0,
        kind: 0,
        vis: 0,
        place: SymPlace::Abs,
        value: 0,
        size: 0,
    }
}

/// The name of an entry; empty where it is not in the string table, not ended there, or too long.
#[tactic(auto, unfolding(crate::specs::Symbols::name_of))]
fn symbol_name(
    table: &Table,
    names: &SharedBytes,
    entry: &SymbolEntry,
) -> Result<SharedBytes, AllocError>
    requires { names.now ≡ symbol_strings table.now }
    ensures { IfOk result (λ name. name ≡ unwrap_or (symbol.name_of table.now entry.now) []) }
{
    match name_of(table, entry) {
        None => Ok(SharedBytes::empty()),
        Some(text) => names.range(entry.name as usize, text.len()),
    }
}

#[tactic(auto, unfolding(crate::specs::Symbols::symbol_in, crate::specs::Symbols::symbol_name))]
fn build_symbol(table: &Table, j: u32, names: &SharedBytes) -> Result<Symbol, AllocError>
    requires names { names.now ≡ symbol_strings table.now }
    requires inside { IsTrue (lies_in table.now.bytes (symtab table.now).offset (symtab table.now).size) }
    requires number { j < symbol_count table.now }
    ensures { IfOk result (λ s. s ≡ symbol_in table.now j) }
{
    if j == 0 {
        return Ok(build_zero());
    }
    let entry = symbol_entry(table, j);
    Ok(Symbol {
        name: symbol_name(table, names, &entry)?,
        bind: entry.bind,
        kind: entry.kind,
        vis: entry.vis,
        place: place_of_symbol(table, &entry),
        value: entry.value,
        size: entry.size,
    })
}

/// The table of the symbols' names; empty where there is no symbol table.
#[tactic(auto, unfolding(crate::specs::Index::symbol_strings, crate::specs::Sections::symtab))]
fn symbol_name_table(file: &SharedBytes, table: &Table) -> Result<SharedBytes, AllocError>
    requires { file.now ≡ table.now.bytes }
    ensures { IfOk result (λ names. names ≡ symbol_strings table.now) }
{
    let symtab = table.section(table.symtab().unwrap_or(0));
    contents_in(file, &table.section(symtab.link))
}

fn build_symbols(alloc: Global, file: &SharedBytes, table: &Table) -> Result<Symbols, AllocError>
    requires file { file.now ≡ table.now.bytes }
    requires inside { IsTrue (lies_in table.now.bytes (symtab table.now).offset (symtab table.now).size) }
    ensures { IfOk result (λ symbols. symbols ≡ map (symbol_in table.now) (numbers (symbol_count table.now))) }
{
    let total = symbol_total(table)?;
    let mut items = Vec::with_capacity(alloc, total as usize)?;
    let names = symbol_name_table(file, table)?;
    for j in 0..total {
        items.push(build_symbol(table, j, &names)?)?;
    }
    Ok(Symbols::from_vec(items))
}

/// The object of a file that no check refuses.
#[tactic(auto, unfolding(crate::specs::Object::object_in))]
pub(crate) fn build(
    alloc: Global,
    file: &SharedBytes,
    table: &Table,
) -> Result<ElfObject, AllocError>
    requires file { file.now ≡ table.now.bytes }
    requires sections { first_below table.now.count (section_refusal table.now) ≡ None }
    requires symbols { IsTrue (lies_in table.now.bytes (symtab table.now).offset (symtab table.now).size) }
    ensures { IfOk result (λ object. object ≡ object_in table.now) }
{
    Ok(ElfObject {
        sections: build_sections(alloc, file, table)?,
        symbols: build_symbols(alloc, file, table)?,
    })
}
