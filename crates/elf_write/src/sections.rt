ghost use Rattle.std.specs.Prelude.{◌≡◌, ◌≤◌, ◌++◌, length, IfOk, OnOk, codes, map};
ghost use Rattle.elf_write.specs.Files as want;
ghost use Rattle.elf_write.specs.Parts as parts;
ghost use Rattle.elf_write.specs.Tables as tables;

use crate::numbers::put_number;
use crate::part::Header;
use crate::writer::Writer;
use elf_read::{Reloc, Section};
use std::alloc::{AllocError, Global};

const SHT_RELA: u32 = 4;

const SHF_INFO_LINK: u64 = 0x40;

fn put_reloc(out: &mut Vec<u8>, reloc: &Reloc) -> Result<(), AllocError>
    ensures { OnOk result (out.new.items ≡ out.old.items ++ tables.reloc_bytes reloc.now) }
{
    put_number(out, 8, reloc.at)?;
    put_number(
        out,
        8,
        reloc.symbol as u64 * 0x1_0000_0000 + reloc.kind as u64,
    )?;
    put_number(out, 8, reloc.addend.cast_unsigned())
}

/// The entries of relocations.
fn relocs_bytes(alloc: Global, relocs: &[Reloc]) -> Result<Vec<u8>, AllocError>
    ensures { IfOk result (λ v. v.items ≡ tables.relocs_bytes relocs.now) }
{
    let mut out = Vec::new(alloc);
    for reloc in relocs {
        put_reloc(&mut out, reloc)?;
    }
    Ok(out)
}

fn put_section(writer: &mut Writer, section: &Section) -> Result<(), AllocError>
    ensures { OnOk result (writer.new ≡ want.with_part (parts.section_part section.now) writer.old) }
{
    let header = Header {
        kind: section.kind,
        flags: section.flags,
        size: section.size,
        link: 0,
        info: 0,
        align: section.align,
        entry_size: 0,
    };
    writer.put_part(section.name.as_slice(), &header, section.bytes.as_slice())
}

/// The sections of the object.
pub(crate) fn put_sections(writer: &mut Writer, sections: &[Section]) -> Result<(), AllocError>
    ensures { OnOk result (writer.new ≡ want.with_parts (map parts.section_part sections.now) writer.old) }
{
    for section in sections {
        put_section(writer, section)?;
    }
    Ok(())
}

fn rela_name(alloc: Global, name: &[u8]) -> Result<Vec<u8>, AllocError>
    ensures { IfOk result (λ v. v.items ≡ codes ".rela" ++ name.now) }
{
    let mut out = b".rela".as_slice().to_vec(alloc)?;
    out.extend_from_slice(name)?;
    Ok(out)
}

fn put_rela(
    alloc: Global,
    writer: &mut Writer,
    symtab: u64,
    number: u64,
    section: &Section,
) -> Result<(), AllocError>
    ensures { OnOk result (writer.new ≡ want.with_part (parts.rela_part symtab number section.now) writer.old) }
{
    let name = rela_name(alloc, section.name.as_slice())?;
    let bytes = relocs_bytes(alloc, section.relocs.as_slice())?;
    let header = Header {
        kind: SHT_RELA,
        flags: SHF_INFO_LINK,
        size: bytes.len() as u64,
        link: symtab,
        info: number,
        align: 8,
        entry_size: 24,
    };
    writer.put_part(name.as_slice(), &header, bytes.as_slice())
}

fn put_rela_of(
    alloc: Global,
    writer: &mut Writer,
    symtab: u64,
    number: u64,
    section: &Section,
) -> Result<(), AllocError>
    ensures { OnOk result (writer.new ≡ want.with_parts (parts.rela_part_of symtab number section.now section.now.relocs) writer.old) }
{
    if section.relocs.as_slice().is_empty() {
        return Ok(());
    }
    put_rela(alloc, writer, symtab, number, section)
}

/// The relocations of sections that have some; the first section has number 1.
#[tactic(auto, using(crate::proofs::Steps::parts_together))]
pub(crate) fn put_relas(
    alloc: Global,
    writer: &mut Writer,
    symtab: u64,
    sections: &[Section],
) -> Result<(), AllocError>
    ensures { OnOk result (writer.new ≡ want.with_parts (parts.rela_parts symtab 1 sections.now) writer.old) }
{
    for i in 0..sections.len() {
        put_rela_of(alloc, writer, symtab, i as u64 + 1, &sections[i])?;
    }
    Ok(())
}

/// How many sections have relocations.
pub(crate) fn rela_count(sections: &[Section]) -> usize
    ensures exact { result ≡ want.rela_count sections.now }
    ensures few { result ≤ length sections.now }
{
    let mut count: usize = 0;
    for section in sections {
        if !section.relocs.as_slice().is_empty() {
            count += 1;
        }
    }
    count
}
