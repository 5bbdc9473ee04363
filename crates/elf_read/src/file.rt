ghost use Rattle.std.specs.Prelude.{◌≡◌, ℕ, ◌+◌, ◌*◌, ◌≤◌, length, IfOk};
ghost use Rattle.elf_read.specs.Choice.{Agrees};
ghost use Rattle.elf_read.specs.File.{lies_in, short, file_of, file_header, section};
ghost use Rattle.elf_read.specs.Sections.{header_refusal, opening_refusal};

use crate::error::{ElfError, NotBuiltKind};
use crate::fields::{FileHeader, SectionHeader, read_file_header, read_section_header};
use crate::gabi::{
    ELF_MAGIC, ELFCLASS64, ELFDATA2LSB, EM_RISCV, ET_REL, HEADER_SIZE, SECTION_SIZE, SHN_XINDEX,
    SHT_STRTAB,
};
use std::marker::Model;

/// Whether a range of so many bytes lies in the file.
pub(crate) fn lies_inside(bytes: &[u8], start: u64, size: u64) -> bool
    ensures { result ≡ lies_in bytes.now start size }
{
    let len = bytes.len() as u64;
    start <= len && size <= len - start
}

/// The refusal of a range that does not lie in the file.
pub(crate) fn too_short(bytes: &[u8], start: u64) -> ElfError
    ensures { result ≡ short bytes.now start }
{
    ElfError::Short(start.max(bytes.len() as u64))
}

/// What stands for a section that is not there.
const NO_SECTION: SectionHeader = SectionHeader {
    name: 0,
    kind: 0,
    flags: 0,
    offset: 0,
    size: 0,
    link: 0,
    info: 0,
    align: 0,
    entry_size: 0,
};

/// The bytes of a file whose section table lies in it, with that table's place and number of
/// entries, and the number of the section that holds the sections' names.
#[derive(Drop)]
pub(crate) struct ElfFile<'a> {
    bytes: &'a [u8],
    table: usize,
    count: u32,
    names: u32,
}

impl<'a> Model for ElfFile<'a> {
    ghost use Rattle.std.specs.Prelude.{◌+◌, ◌*◌, ◌≤◌, length};
    ghost use Rattle.elf_read.specs.File.{File};

    ghost Value = { File };

    ghost view = { λ f. record { bytes = f.bytes.now; table = f.table; count = f.count; names = f.names } };

    ghost invariant = { λ f. (f.table + 64 * f.count ≤ length f.bytes.now) × (64 ≤ length f.bytes.now) };
}

impl<'a> ElfFile<'a> {
    pub fn bytes(&self) -> &'a [u8]
        ensures { result.now ≡ self.now.bytes }
    {
        self.bytes
    }

    pub fn table(&self) -> usize
        ensures place { result ≡ self.now.table }
        ensures inside { self.now.table + 64 * self.now.count ≤ length self.now.bytes }
        ensures header { 64 ≤ length self.now.bytes }
    {
        self.table
    }

    /// The number of entries of the section table, of which entry 0 is no section.
    pub fn count(&self) -> u32
        ensures { result ≡ self.now.count }
    {
        self.count
    }

    pub fn names(&self) -> u32
        ensures { result ≡ self.now.names }
    {
        self.names
    }

    /// The section of a number; of a number that is no section's, the header of no section.
    #[tactic(auto, unfolding(crate::specs::File::section))]
    pub fn section(&self, i: u32) -> SectionHeader
        ensures { result ≡ section self.now i }
    {
        if i != 0 && i < self.count {
            read_section_header(self.bytes, self.table + SECTION_SIZE * i as usize)
        } else {
            NO_SECTION
        }
    }
}

/// What a file says of itself in its header.
#[tactic(auto, unfolding(crate::specs::Sections::header_refusal))]
fn check_header(bytes: &[u8]) -> Result<FileHeader, ElfError>
    ensures agrees { Agrees result (header_refusal bytes.now) }
    ensures header { IfOk result (λ h. (h ≡ file_header bytes.now) × (64 ≤ length bytes.now)) }
{
    if !lies_inside(bytes, 0, HEADER_SIZE as u64) {
        return Err(too_short(bytes, 0));
    }
    let header = read_file_header(bytes);
    if header.magic != ELF_MAGIC {
        return Err(ElfError::BadMagic);
    }
    if header.class != ELFCLASS64 {
        return Err(ElfError::NotClass64);
    }
    if header.encoding != ELFDATA2LSB {
        return Err(ElfError::NotLittle);
    }
    if header.kind != ET_REL {
        return Err(ElfError::NotRelocatable);
    }
    if header.machine != EM_RISCV {
        return Err(ElfError::NotRiscv);
    }
    if header.flags != 0 {
        return Err(ElfError::BadFlags(header.flags));
    }
    Ok(header)
}

/// The file of these bytes, where its header and section table are right.
#[tactic(auto, unfolding(crate::specs::Sections::opening_refusal, crate::specs::Sections::table_refusal, crate::specs::File::file_of))]
pub(crate) fn open(bytes: &[u8]) -> Result<ElfFile<'_>, ElfError>
    ensures agrees { Agrees result (opening_refusal bytes.now) }
    ensures file { IfOk result (λ f. f ≡ file_of bytes.now) }
{
    let header = check_header(bytes)?;
    if header.entry_size as usize != SECTION_SIZE || header.count == 0 {
        return Err(ElfError::BadTable(0));
    }
    if header.names == SHN_XINDEX {
        return Err(ElfError::NotBuilt(NotBuiltKind::Xindex));
    }
    if header.count <= header.names {
        return Err(ElfError::BadLink(0));
    }
    if !lies_inside(
        bytes,
        header.table,
        SECTION_SIZE as u64 * header.count as u64,
    ) {
        return Err(too_short(bytes, header.table));
    }
    let file = ElfFile {
        bytes,
        table: header.table as usize,
        count: header.count as u32,
        names: header.names as u32,
    };
    if file.section(file.names()).kind != SHT_STRTAB {
        return Err(ElfError::BadLink(0));
    }
    Ok(file)
}
