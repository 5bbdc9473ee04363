ghost use Rattle.std.specs.Prelude.{◌≡◌, ℕ, ◌<◌, ◌≤◌, ◌+◌, ◌*◌, ◌&&◌, ◌==◌, map, length, drop, slice_index_or, replicate, IfOk, MatchOption, Some, None};
ghost use Rattle.elf_read.specs.Choice.{when, ◌otherwise◌};
ghost use Rattle.elf_read.specs.File.{section};
ghost use Rattle.elf_read.specs.Gabi.{sht_rela};
ghost use Rattle.elf_read.specs.Index.{section_strings, symbol_strings};
ghost use Rattle.elf_read.specs.Sections.{symtab_of, rela_of, text_in};
ghost use Rattle.elf_read.specs.Sections as want;
ghost use Rattle.elf_read.specs.Symbols.{numbers, kept_below};

use crate::fields::SectionHeader;
use crate::file::ElfFile;
use crate::gabi::{SHT_RELA, SHT_SYMTAB};
use crate::string_table::{StringTable, section_bytes};
use std::alloc::{AllocError, Global};
use std::marker::Model;

/// A file with what its checks look up: the symbol table's number, for each section the number of its
/// relocations and how many kept sections stand before it, and where names end.
#[derive(Drop)]
pub(crate) struct Table<'a> {
    file: ElfFile<'a>,
    symtab: Option<u32>,
    relas: Vec<Option<u32>>,
    kept: Vec<u32>,
    section_names: StringTable<'a>,
    symbol_names: StringTable<'a>,
}

impl<'a> Model for Table<'a> {
    ghost use Rattle.std.specs.Prelude.{◌≡◌};
    ghost use Rattle.elf_read.specs.File.{File};
    ghost use Rattle.elf_read.specs.Index.{IsIndex, section_strings, symbol_strings};

    ghost Value = { File };

    ghost view = { λ t. t.file };

    ghost invariant = { λ t. IsIndex t.file t.symtab t.relas.items t.kept.items
        × (t.section_names ≡ section_strings t.file)
        × (t.symbol_names ≡ symbol_strings t.file) };
}

fn first_symtab(file: &ElfFile) -> Option<u32>
    ensures { result ≡ symtab_of file.now }
{
    for i in 0..file.count() {
        if file.section(i).kind == SHT_SYMTAB {
            return Some(i);
        }
    }
    None
}

/// Notes section i as the relocations of the section that it names, unless an earlier one is.
fn note_rela(relas: &mut [Option<u32>], section: &SectionHeader, i: u32)
    ensures { (k : ℕ) → k < length relas.old → slice_index_or relas.new k None ≡ (slice_index_or relas.old k None otherwise when (section.now.kind == sht_rela && section.now.info == k) i) }
{
    let target = section.info as usize;
    if section.kind == SHT_RELA && target < relas.len() && relas[target].is_none() {
        relas[target] = Some(i);
    }
}

/// Notes the relocations of each section, in the order of the table.
fn note_relas(relas: &mut [Option<u32>], file: &ElfFile)
    requires { relas.old ≡ replicate file.now.count None }
    ensures { relas.new ≡ map (rela_of file.now) (numbers file.now.count) }
{
    for i in 0..file.count() {
        note_rela(relas, &file.section(i), i);
    }
}

fn first_relas(alloc: Global, file: &ElfFile) -> Result<Vec<Option<u32>>, AllocError>
    ensures { IfOk result (λ v. v.items ≡ map (rela_of file.now) (numbers file.now.count)) }
{
    let mut relas = Vec::new(alloc);
    relas.resize(file.count() as usize, None)?;
    note_relas(&mut relas, file);
    Ok(relas)
}

fn kept_before(alloc: Global, file: &ElfFile) -> Result<Vec<u32>, AllocError>
    ensures { IfOk result (λ v. v.items ≡ map (λ i. length (kept_below file.now i)) (numbers file.now.count)) }
{
    let mut before = Vec::new(alloc);
    let mut kept = 0;
    for i in 0..file.count() {
        before.push(kept)?;
        if file.section(i).is_kept() {
            kept += 1;
        }
    }
    Ok(before)
}

/// The table of the sections' names.
fn find_section_names<'a>(alloc: Global, file: &ElfFile<'a>) -> Result<StringTable<'a>, AllocError>
    ensures { IfOk result (λ strings. strings ≡ section_strings file.now) }
{
    StringTable::new(
        alloc,
        section_bytes(file.bytes(), &file.section(file.names())),
    )
}

/// The table of the symbols' names; empty where there is no symbol table.
#[tactic(auto, unfolding(crate::specs::Sections::symtab))]
fn find_symbol_names<'a>(
    alloc: Global,
    file: &ElfFile<'a>,
    number: Option<u32>,
) -> Result<StringTable<'a>, AllocError>
    requires { number ≡ symtab_of file.now }
    ensures { IfOk result (λ strings. strings ≡ symbol_strings file.now) }
{
    let symtab = file.section(number.unwrap_or(0));
    StringTable::new(
        alloc,
        section_bytes(file.bytes(), &file.section(symtab.link)),
    )
}

impl<'a> Table<'a> {
    /// Looks up the symbol table, the relocations of each section and the ends of names.
    pub fn new(alloc: Global, file: ElfFile<'a>) -> Result<Table<'a>, AllocError>
        ensures { IfOk result (λ t. t ≡ file.entry) }
    {
        let symtab = first_symtab(&file);
        let relas = first_relas(alloc, &file)?;
        let kept = kept_before(alloc, &file)?;
        let section_names = find_section_names(alloc, &file)?;
        let symbol_names = find_symbol_names(alloc, &file, symtab)?;
        Ok(Table {
            file,
            symtab,
            relas,
            kept,
            section_names,
            symbol_names,
        })
    }

    pub fn bytes(&self) -> &'a [u8]
        ensures { result.now ≡ self.now.bytes }
    {
        self.file.bytes()
    }

    /// The place of the section table.
    pub fn place(&self) -> usize
        ensures place { result ≡ self.now.table }
        ensures inside { self.now.table + 64 * self.now.count ≤ length self.now.bytes }
        ensures header { 64 ≤ length self.now.bytes }
    {
        self.file.table()
    }

    /// The number of sections, the null section among them.
    pub fn count(&self) -> u32
        ensures { result ≡ self.now.count }
    {
        self.file.count()
    }

    /// The number of the section with the sections' names.
    pub fn names(&self) -> u32
        ensures { result ≡ self.now.names }
    {
        self.file.names()
    }

    /// The section of a number; of a number that is no section's, the header of no section.
    pub fn section(&self, i: u32) -> SectionHeader
        ensures { result ≡ section self.now i }
    {
        self.file.section(i)
    }

    /// The number of the symbol table, which is the first section of its type.
    pub fn symtab(&self) -> Option<u32>
        ensures { result ≡ symtab_of self.now }
    {
        self.symtab
    }

    /// The first section with the relocations of section i.
    pub fn rela(&self, i: u32) -> Option<u32>
        requires { i < self.now.count }
        ensures { result ≡ rela_of self.now i }
    {
        self.relas[i as usize]
    }

    /// How many kept sections stand before section i.
    pub fn kept_before(&self, i: u32) -> u32
        requires { i < self.now.count }
        ensures { result ≡ length (kept_below self.now i) }
    {
        self.kept[i as usize]
    }

    /// The name of a section; none where it is not in the name table, and ended there.
    #[tactic(auto, unfolding(crate::specs::Sections::section_name))]
    pub fn section_name(&self, i: u32) -> Option<&'a [u8]>
        ensures { MatchOption result (want.section_name self.now i ≡ None) (λ name. want.section_name self.now i ≡ Some name.now) }
    {
        self.section_names.text(self.section(i).name as usize)
    }

    /// The text of a place in the table of the symbols' names; none where it isn't ended there.
    pub fn symbol_text(&self, at: u32) -> Option<&'a [u8]>
        ensures { MatchOption result (text_in (drop at (symbol_strings self.now)) ≡ None)
            (λ text. text_in (drop at (symbol_strings self.now)) ≡ Some text.now) }
    {
        self.symbol_names.text(at as usize)
    }
}
