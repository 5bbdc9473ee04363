ghost use Rattle.std.specs.Prelude.{◌≡◌};
ghost use Rattle.asm_lines.specs.declared.statement.LineError.TheVariants.{Bad, NoMemory};

use crate::name::Name;
use crate::values::Reference;
use orc_ids::{Bytes, Items};
use rv_insn::Insn;
use std::alloc::{AllocError, AllocFailed};

/// Why a line is refused.
#[derive(Clone, Copy, Debug, PartialEq, Eq)]
pub enum AsmWhy {
    /// What stands before the colon is no symbol of at most 4,096 bytes, or is defined already.
    Label,
    /// The first word is none of the assembler's.
    Word,
    /// The operands haven't the number and the forms of the word.
    Operands,
    /// A number doesn't fit its place.
    Number,
    /// A symbol is too long, or a common symbol is defined already.
    Name,
    /// The section isn't one that there may be, or doesn't take this.
    Section,
}

/// Why there is no statement.
#[derive(Clone, Copy, Debug, PartialEq, Eq)]
pub enum LineError {
    Bad(AsmWhy),
    NoMemory,
}

impl From<AsmWhy> for LineError {
    ghost from_gives = { λ why e. e ≡ Bad why };

    fn from(why: AsmWhy) -> LineError {
        LineError::Bad(why)
    }
}

impl From<AllocError> for LineError {
    ghost from_gives = { λ _ e. e ≡ NoMemory };

    fn from(_e: AllocError) -> LineError {
        LineError::NoMemory
    }
}

impl<T: Drop> From<AllocFailed<T>> for LineError {
    ghost from_gives = { λ _ e. e ≡ NoMemory };

    fn from(_e: AllocFailed<T>) -> LineError {
        LineError::NoMemory
    }
}

/// A relocation of a word: `kind` is the type of the RISC-V ELF psABI.
#[derive(Drop)]
pub struct Fixup<'a> {
    pub kind: u32,
    pub symbol: Name<'a>,
    pub addend: i64,
}

/// What a data directive writes once.
#[derive(Drop)]
pub enum Item<'a> {
    /// A number that the directive's width holds, signed or unsigned.
    Number(i128),
    /// An address; the addend has 64 bits.
    Address(Reference<'a>),
}

/// What a section is for.
#[derive(Clone, Copy, Debug, PartialEq, Eq)]
pub enum SectionKind {
    Text,
    Data,
    Bss,
    ReadOnly,
}

/// What a line says after its label.
#[derive(Drop)]
pub enum Statement<'a> {
    Nothing,
    /// `.text`, `.data`, `.bss`, `.section`.
    Section {
        name: Name<'a>,
        kind: SectionKind,
    },
    /// `.globl`
    Global(Name<'a>),
    /// `.weak`
    Weak(Name<'a>),
    /// `.hidden`
    Hidden(Name<'a>),
    /// `.byte`, `.half`, `.word`, `.dword`: items of `width` bytes.
    Values {
        width: u8,
        items: Items<Item<'a>>,
    },
    /// `.ascii`
    Ascii(Bytes),
    /// `.zero`, of at most 16 MiB.
    Zero(u64),
    /// `.balign`: a power of two up to 4,096.
    Align(u64),
    /// `.comm`
    Common {
        symbol: Name<'a>,
        size: u64,
        align: u64,
    },
    /// `.option relax` and `.option norelax`
    Relax(bool),
    /// One instruction. A branch or a jump has distance 0 and the relocation of its target.
    Code {
        insn: Insn,
        fixup: Option<Fixup<'a>>,
    },
    /// `call` and `tail`: two instructions, and one relocation for both.
    Call {
        first: Insn,
        second: Insn,
        symbol: Name<'a>,
    },
}
