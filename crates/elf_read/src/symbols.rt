ghost use Rattle.std.specs.Prelude.{◌≡◌, ℕ, List, ◌+◌, ◌^◌, ◌<◌, ◌≤◌, ◌&&◌, ◌||◌, ◌==◌, not, nat_le, nat_lt, IsTrue, IfOk, OnOk, MatchOption, Some, None};
ghost use Rattle.std.specs.List.{list_any};
ghost use Rattle.std.specs.Str.{bytes_eq};
ghost use Rattle.elf_read.specs.declared.error.ElfError.TheVariants.{BadSymbol};
ghost use Rattle.elf_read.specs.Choice.{Agrees, AgreesIfRoom, when, first_below};
ghost use Rattle.elf_read.specs.File.{section, lies_in};
ghost use Rattle.elf_read.specs.Gabi.{shn_common, shn_undef, stb_local};
ghost use Rattle.elf_read.specs.Sections.{is_kept, is_small_power, symtab, section_refusal};
ghost use Rattle.elf_read.specs.Symbols as want;

use crate::error::{ElfError, NotBuiltKind};
use crate::fields::{SymbolEntry, read_symbol};
use crate::gabi::{
    ENTRY_SIZE, LARGEST_COMMON, LONGEST_NAME, SHN_ABS, SHN_COMMON, SHN_UNDEF, SHN_XINDEX,
    STB_LOCAL, STB_WEAK,
};
use crate::header::is_power;
use crate::name_set::NameSet;
use crate::sections::symtab_header;
use crate::table::Table;
use std::alloc::{AllocError, Global};

/// How many symbols there are. Symbol 0 is there without a table too.
#[tactic(auto, unfolding(crate::specs::Symbols::symbol_count))]
pub(crate) fn symbol_count(table: &Table) -> u64
    ensures { result ≡ want.symbol_count table.now }
{
    (symtab_header(table).size / ENTRY_SIZE).max(1)
}

/// How many symbols there are; no memory holds more than a `u32` numbers.
pub(crate) fn symbol_total(table: &Table) -> Result<u32, AllocError>
    ensures { IfOk result (λ total. total ≡ want.symbol_count table.now) }
{
    let count = symbol_count(table);
    if count > u32::MAX as u64 {
        return Err(AllocError);
    }
    Ok(count as u32)
}

/// The entry of symbol j, which is not symbol 0.
#[tactic(auto, unfolding(crate::specs::Symbols::symbol_count, crate::specs::Symbols::entry))]
pub(crate) fn symbol_entry(table: &Table, j: u32) -> SymbolEntry
    requires inside { IsTrue (lies_in table.now.bytes (symtab table.now).offset (symtab table.now).size) }
    requires first { 1 ≤ j }
    requires last { j < want.symbol_count table.now }
    ensures { result ≡ want.entry table.now j }
{
    let symtab = symtab_header(table);
    read_symbol(
        table.bytes(),
        symtab.offset as usize + ENTRY_SIZE as usize * j as usize,
    )
}

/// The name of a symbol; none where it is not in the string table, not ended there, or too long.
#[tactic(auto, unfolding(crate::specs::Symbols::name_of))]
pub(crate) fn name_of<'a>(table: &Table<'a>, entry: &SymbolEntry) -> Option<&'a [u8]>
    ensures { MatchOption result (want.name_of table.now entry.now ≡ None) (λ text. want.name_of table.now entry.now ≡ Some text.now) }
{
    let name = table.symbol_text(entry.name)?;
    if name.len() as u64 > LONGEST_NAME {
        return None;
    }
    Some(name)
}

/// The name of symbol j, which is not symbol 0.
#[tactic(auto, unfolding(crate::specs::Symbols::symbol_name))]
pub(crate) fn symbol_name<'a>(table: &Table<'a>, j: u32) -> &'a [u8]
    requires inside { IsTrue (lies_in table.now.bytes (symtab table.now).offset (symtab table.now).size) }
    requires first { 1 ≤ j }
    requires last { j < want.symbol_count table.now }
    ensures { result.now ≡ want.symbol_name table.now j }
{
    match name_of(table, &symbol_entry(table, j)) {
        None => &[],
        Some(name) => name,
    }
}

/// Whether the number is that of a section, and none of those with a meaning of their own.
fn is_in_section(entry: &SymbolEntry) -> bool
    ensures { result ≡ want.in_section entry.now }
{
    entry.section != SHN_ABS && entry.section != SHN_COMMON
}

fn is_past_end(table: &Table, entry: &SymbolEntry) -> bool
    ensures { result ≡ (is_kept (section table.now entry.now.section) && nat_lt (section table.now entry.now.section).size entry.now.value) }
{
    let section = table.section(entry.section as u32);
    section.is_kept() && section.size < entry.value
}

/// A common symbol's value is its alignment.
fn is_bad_common(entry: &SymbolEntry) -> bool
    ensures { result ≡ (entry.now.section == shn_common && (not (is_small_power entry.now.value) || nat_lt (2 ^ 24) entry.now.size)) }
{
    entry.section == SHN_COMMON && (!is_power(entry.value) || entry.size > LARGEST_COMMON)
}

fn is_bad_local(entry: &SymbolEntry) -> bool
    ensures { result ≡ (entry.now.bind == stb_local && (entry.now.section == shn_undef || entry.now.section == shn_common)) }
{
    entry.bind == STB_LOCAL && (entry.section == SHN_UNDEF || entry.section == SHN_COMMON)
}

#[tactic(auto, unfolding(crate::specs::Symbols::is_misplaced))]
fn is_misplaced(table: &Table, entry: &SymbolEntry) -> bool
    ensures { result ≡ want.is_misplaced table.now entry.now }
{
    is_in_section(entry) && table.count() <= entry.section as u32
        || is_in_section(entry) && is_past_end(table, entry)
        || is_bad_common(entry)
        || is_bad_local(entry)
}

fn is_bad_byte(byte: u8) -> bool
    ensures { result ≡ (nat_lt byte 0x21 || byte == 0x7f) }
{
    byte < 0x21 || byte == 0x7f
}

fn has_bad_byte(name: &[u8]) -> bool
    ensures { result ≡ list_any (λ b. nat_lt b 0x21 || b == 0x7f) name.now }
{
    name.iter().any(|byte| is_bad_byte(*byte))
}

/// Whether a name is none for a symbol that others may see.
#[tactic(auto, unfolding(crate::specs::Symbols::is_bad_name))]
fn is_bad_name(name: &[u8]) -> bool
    ensures { result ≡ want.is_bad_name name.now }
{
    name.is_empty() || has_bad_byte(name)
}

/// What is wrong with a symbol by itself.
#[tactic(auto, unfolding(crate::specs::Symbols::own_refusal))]
fn check_own(table: &Table, j: u32) -> Result<(), ElfError>
    requires inside { IsTrue (lies_in table.now.bytes (symtab table.now).offset (symtab table.now).size) }
    requires first { 1 ≤ j }
    requires last { j < want.symbol_count table.now }
    ensures { Agrees result (want.own_refusal table.now j) }
{
    let entry = symbol_entry(table, j);
    if name_of(table, &entry).is_none() {
        return Err(ElfError::BadSymbol(j));
    }
    if entry.bind > STB_WEAK {
        return Err(ElfError::NotBuilt(NotBuiltKind::Bind));
    }
    if entry.section == SHN_XINDEX {
        return Err(ElfError::NotBuilt(NotBuiltKind::Xindex));
    }
    if is_misplaced(table, &entry) {
        return Err(ElfError::BadSymbol(j));
    }
    if entry.bind != STB_LOCAL && is_bad_name(symbol_name(table, j)) {
        return Err(ElfError::BadSymbol(j));
    }
    Ok(())
}

/// Whether other objects may see symbol j, which is not symbol 0.
#[tactic(auto, unfolding(crate::specs::Symbols::is_global))]
fn is_global(table: &Table, j: u32) -> bool
    requires inside { IsTrue (lies_in table.now.bytes (symtab table.now).offset (symtab table.now).size) }
    requires first { 1 ≤ j }
    requires last { j < want.symbol_count table.now }
    ensures { result ≡ want.is_global table.now j }
{
    symbol_entry(table, j).bind != STB_LOCAL
}

/// Adds the name of symbol j, unless it is local; an earlier symbol that others may see must not
/// have it.
fn check_taken<'a>(names: &mut NameSet<'a>, table: &Table<'a>, j: u32) -> Result<(), ElfError>
    requires inside { IsTrue (lies_in table.now.bytes (symtab table.now).offset (symtab table.now).size) }
    requires first { 1 ≤ j }
    requires last { j < want.symbol_count table.now }
    requires names { (q : List ℕ) → list_any (bytes_eq q) names.old ≡ want.is_taken table.now j q }
    ensures agrees { AgreesIfRoom result (when (want.is_global table.now j && want.is_taken table.now j (want.symbol_name table.now j)) (BadSymbol j)) }
    ensures names { OnOk result ((q : List ℕ) → list_any (bytes_eq q) names.new ≡ want.is_taken table.now (j + 1) q) }
{
    if !is_global(table, j) {
        return Ok(());
    }
    if names.insert(symbol_name(table, j))? {
        Ok(())
    } else {
        Err(ElfError::BadSymbol(j))
    }
}

#[tactic(auto, unfolding(crate::specs::Symbols::symbol_refusal))]
fn check_symbol<'a>(names: &mut NameSet<'a>, table: &Table<'a>, j: u32) -> Result<(), ElfError>
    requires inside { IsTrue (lies_in table.now.bytes (symtab table.now).offset (symtab table.now).size) }
    requires first { 1 ≤ j }
    requires last { j < want.symbol_count table.now }
    requires names { (q : List ℕ) → list_any (bytes_eq q) names.old ≡ want.is_taken table.now j q }
    ensures agrees { AgreesIfRoom result (want.symbol_refusal table.now j) }
    ensures names { OnOk result ((q : List ℕ) → list_any (bytes_eq q) names.new ≡ want.is_taken table.now (j + 1) q) }
{
    check_own(table, j)?;
    check_taken(names, table, j)
}

/// The first symbol that is malformed, or whose binding or section number is not built.
pub(crate) fn check_symbols(alloc: Global, table: &Table) -> Result<(), ElfError>
    requires { IsTrue (lies_in table.now.bytes (symtab table.now).offset (symtab table.now).size) }
    ensures { AgreesIfRoom result (first_below (want.symbol_count table.now) (want.symbol_refusal table.now)) }
{
    let total = symbol_total(table)?;
    let mut names = NameSet::new(alloc);
    for j in 1..total {
        check_symbol(&mut names, table, j)?;
    }
    Ok(())
}
