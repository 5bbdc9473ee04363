ghost use Rattle.std.specs.Prelude.{◌≡◌, ◌<◌, ◌+◌, All, None, length, IfOk};
ghost use Rattle.rv_asm.specs.Branches.{first_far_in, first_far_from};
ghost use Rattle.rv_asm.specs.Symbols as symbol;
ghost use Rattle.rv_asm.specs.Sections as want;
ghost use Rattle.rv_asm.specs.Typed.{Typed};

use crate::contents::contents;
use crate::order::SymbolOrder;
use crate::relocs::relocs_of;
use asm_lines::SectionKind;
use asm_state::{Making, SymbolBook};
use asm_text::Assembler;
use elf_read::{Section, Sections};
use shared_bytes::SharedBytes;
use std::alloc::{AllocError, Global};

const SHT_PROGBITS: u32 = 1;

const SHT_NOBITS: u32 = 8;

const SHF_WRITE: u64 = 1;

const SHF_ALLOC: u64 = 2;

const SHF_EXECINSTR: u64 = 4;

fn section_type(kind: SectionKind) -> u32
    ensures { result ≡ want.section_type kind }
{
    match kind {
        SectionKind::Bss => SHT_NOBITS,
        SectionKind::Text | SectionKind::Data | SectionKind::ReadOnly => SHT_PROGBITS,
    }
}

fn flags_of(kind: SectionKind) -> u64
    ensures { result ≡ want.flags_of kind }
{
    match kind {
        SectionKind::Text => SHF_ALLOC | SHF_EXECINSTR,
        SectionKind::Data | SectionKind::Bss => SHF_WRITE | SHF_ALLOC,
        SectionKind::ReadOnly => SHF_ALLOC,
    }
}

/// A section of the text, by its number, as one of the object.
fn section_of(
    alloc: Global,
    symbols: &SymbolBook,
    order: &SymbolOrder,
    section: u32,
    name: &[u8],
    made: &Making,
) -> Result<Section, AllocError>
    requires order { order.now ≡ symbol.order symbols.now }
    requires near { first_far_in symbols.now section made.now.code ≡ None }
    ensures exact { IfOk result (λ s. want.IsSection symbols.now section name.now made.now s) }
    ensures typed { IfOk result (λ s. Typed (1 + length order.now) s) }
{
    Ok(Section {
        name: SharedBytes::copy_of(alloc, name)?,
        kind: section_type(made.kind()),
        flags: flags_of(made.kind()),
        align: made.align(),
        size: made.size(),
        bytes: contents(alloc, symbols, section, made)?,
        relocs: relocs_of(alloc, symbols, order, section, made.patches())?,
    })
}

/// The section of this number.
#[tactic(auto, using(crate::proofs::Words::near_in))]
fn numbered(
    alloc: Global,
    known: &Assembler,
    order: &SymbolOrder,
    section: usize,
) -> Result<Section, AllocError>
    requires order { order.now ≡ symbol.order known.now.symbols }
    requires near { first_far_from known.now.symbols 0 known.now.sections.made ≡ None }
    requires inside { section < length known.now.sections.names }
    ensures exact { IfOk result (λ s. want.IsSection known.now.symbols section (want.name_at known.now section) (want.made_at known.now section) s) }
    ensures typed { IfOk result (λ s. Typed (1 + length order.now) s) }
{
    let name = known.sections.name(section);
    let made = &known.sections.made()[section];
    section_of(alloc, &known.symbols, order, section as u32, name, made)
}

/// The sections of the object.
pub(crate) fn sections_of(
    alloc: Global,
    known: &Assembler,
    order: &SymbolOrder,
) -> Result<Sections, AllocError>
    requires order { order.now ≡ symbol.order known.now.symbols }
    requires near { first_far_from known.now.symbols 0 known.now.sections.made ≡ None }
    ensures exact { IfOk result (λ sections. want.AreSections known.now sections) }
    ensures typed { IfOk result (λ sections. All (Typed (1 + length order.now)) sections) }
{
    let mut items = Vec::new(alloc);
    for section in 0..known.sections.len() {
        items.push(numbered(alloc, known, order, section)?)?;
    }
    Ok(Sections::from_vec(items))
}
