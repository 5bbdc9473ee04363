ghost use Rattle.std.specs.Prelude.{◌≡◌, ◌+◌, ◌≤◌, length};
ghost use Rattle.elf_read.specs.File.{field, file_header, section_header, symbol_entry, reloc_entry};

use crate::object::Reloc;
use orc_words::{get_le, sign_extend};

/// The fields of the file header (`Elf64_Ehdr`) that a relocatable object depends on.
#[derive(Clone, Copy)]
pub(crate) struct FileHeader {
    pub magic: u32,
    pub class: u8,
    pub encoding: u8,
    pub kind: u16,
    pub machine: u16,
    pub table: u64,
    pub flags: u32,
    pub entry_size: u16,
    pub count: u16,
    pub names: u16,
}

/// The fields of an entry of the section table (`Elf64_Shdr`), all but the address.
#[derive(Clone, Copy)]
pub(crate) struct SectionHeader {
    pub name: u32,
    pub kind: u32,
    pub flags: u64,
    pub offset: u64,
    pub size: u64,
    pub link: u32,
    pub info: u32,
    pub align: u64,
    pub entry_size: u64,
}

/// An entry of the symbol table (`Elf64_Sym`), with the parts of `st_info` and `st_other`.
#[derive(Clone, Copy)]
pub(crate) struct SymbolEntry {
    pub name: u32,
    pub bind: u8,
    pub kind: u8,
    pub vis: u8,
    pub section: u16,
    pub value: u64,
    pub size: u64,
}

#[tactic(auto, unfolding(orc_words::specs::Numbers::number_at))]
fn byte(bytes: &[u8], at: usize) -> u8
    requires { at + 1 ≤ length bytes.now }
    ensures { result ≡ field bytes.now at 1 }
{
    get_le(bytes, at, 1) as u8
}

#[tactic(auto, unfolding(orc_words::specs::Numbers::number_at))]
fn half(bytes: &[u8], at: usize) -> u16
    requires { at + 2 ≤ length bytes.now }
    ensures { result ≡ field bytes.now at 2 }
{
    get_le(bytes, at, 2) as u16
}

#[tactic(auto, unfolding(orc_words::specs::Numbers::number_at))]
fn word(bytes: &[u8], at: usize) -> u32
    requires { at + 4 ≤ length bytes.now }
    ensures { result ≡ field bytes.now at 4 }
{
    get_le(bytes, at, 4) as u32
}

fn double_word(bytes: &[u8], at: usize) -> u64
    requires { at + 8 ≤ length bytes.now }
    ensures { result ≡ field bytes.now at 8 }
{
    get_le(bytes, at, 8)
}

#[tactic(auto, unfolding(crate::specs::File::file_header))]
pub(crate) fn read_file_header(bytes: &[u8]) -> FileHeader
    requires { 64 ≤ length bytes.now }
    ensures { result ≡ file_header bytes.now }
{
    FileHeader {
        magic: word(bytes, 0),
        class: byte(bytes, 4),
        encoding: byte(bytes, 5),
        kind: half(bytes, 16),
        machine: half(bytes, 18),
        table: double_word(bytes, 40),
        flags: word(bytes, 48),
        entry_size: half(bytes, 58),
        count: half(bytes, 60),
        names: half(bytes, 62),
    }
}

#[tactic(auto, unfolding(crate::specs::File::section_header))]
pub(crate) fn read_section_header(bytes: &[u8], at: usize) -> SectionHeader
    requires { at + 64 ≤ length bytes.now }
    ensures { result ≡ section_header bytes.now at }
{
    SectionHeader {
        name: word(bytes, at),
        kind: word(bytes, at + 4),
        flags: double_word(bytes, at + 8),
        offset: double_word(bytes, at + 24),
        size: double_word(bytes, at + 32),
        link: word(bytes, at + 40),
        info: word(bytes, at + 44),
        align: double_word(bytes, at + 48),
        entry_size: double_word(bytes, at + 56),
    }
}

#[tactic(auto, unfolding(crate::specs::File::symbol_entry))]
pub(crate) fn read_symbol(bytes: &[u8], at: usize) -> SymbolEntry
    requires { at + 24 ≤ length bytes.now }
    ensures { result ≡ symbol_entry bytes.now at }
{
    let info = byte(bytes, at + 4);
    SymbolEntry {
        name: word(bytes, at),
        bind: info / 16,
        kind: info % 16,
        vis: byte(bytes, at + 5) % 4,
        section: half(bytes, at + 6),
        value: double_word(bytes, at + 8),
        size: double_word(bytes, at + 16),
    }
}

#[tactic(auto, unfolding(crate::specs::File::reloc_entry))]
pub(crate) fn read_reloc(bytes: &[u8], at: usize) -> Reloc
    requires { at + 24 ≤ length bytes.now }
    ensures { result ≡ reloc_entry bytes.now at }
{
    let info = double_word(bytes, at + 8);
    Reloc {
        at: double_word(bytes, at),
        kind: (info % (1 << 32)) as u32,
        symbol: (info >> 32) as u32,
        addend: sign_extend::<64>(double_word(bytes, at + 16)),
    }
}
