/// `R_RISCV_NONE`.
pub const NONE: u32 = 0;

/// `R_RISCV_BRANCH`.
pub const BRANCH: u32 = 16;

/// `R_RISCV_JAL`.
pub const JAL: u32 = 17;

/// `R_RISCV_CALL`.
pub const CALL: u32 = 18;

/// `R_RISCV_CALL_PLT`.
pub const CALL_PLT: u32 = 19;

/// `R_RISCV_GOT_HI20`.
pub const GOT_HI20: u32 = 20;

/// `R_RISCV_PCREL_HI20`.
pub const PCREL_HI20: u32 = 23;

/// `R_RISCV_PCREL_LO12_I`.
pub const PCREL_LO12_I: u32 = 24;

/// `R_RISCV_PCREL_LO12_S`.
pub const PCREL_LO12_S: u32 = 25;

/// `R_RISCV_HI20`.
pub const HI20: u32 = 26;

/// `R_RISCV_LO12_I`.
pub const LO12_I: u32 = 27;

/// `R_RISCV_LO12_S`.
pub const LO12_S: u32 = 28;

/// `R_RISCV_ALIGN`.
pub const ALIGN: u32 = 43;

/// `R_RISCV_RELAX`.
pub const RELAX: u32 = 51;

/// `R_RISCV_PLT32`.
pub const PLT32: u32 = 59;

/// What the value of a relocation is, from the symbol's address S, the addend A and the address P of
/// the patched place (RISC-V ELF psABI, "Calculation Symbols").
#[derive(Clone, Copy)]
pub enum Formula {
    /// The marks have no value; 0 stands for it.
    Zero,
    /// S + A
    Absolute,
    /// S + A - P
    Relative,
    /// The value of the edge that stands at the label S. By itself it is 0.
    Paired,
}

/// Which values a relocation takes.
#[derive(Clone, Copy)]
pub enum Span {
    Any,
    /// A word of 32 bits, signed or unsigned: -2^31 to 2^32 - 1.
    Word,
    /// -2^31 to 2^31 - 1
    SignedWord,
    /// The reach of a branch: an even number from -2^12 to 2^12 - 2.
    Branch,
    /// The reach of a jump: an even number from -2^20 to 2^20 - 2.
    Jump,
    /// The reach of an upper part with a signed low part: -2^31 to 2^31 - 1 once 2^11 is added.
    Split,
}

/// What a relocation writes.
#[derive(Clone, Copy)]
pub enum Form {
    Unwritten,
    /// The low bits of the value.
    Number,
    /// What stood there and the value.
    Sum,
    /// What stood there less the value.
    Difference,
    /// The low six bits; the two above them stay.
    LowSix,
    /// The low six bits less the value; the two above them stay.
    LowSixDifference,
    FormatB,
    FormatJ,
    /// The upper part, in the immediate of format U.
    FormatU,
    /// The low twelve bits, in the immediate of format I.
    FormatI,
    /// The low twelve bits, in the immediate of format S.
    FormatS,
    /// The upper part in format U of the first word, the low twelve bits in format I of the second.
    Call,
}

/// The row of a relocation kind. The width is in bytes.
#[derive(Clone, Copy)]
pub struct Rule {
    pub formula: Formula,
    pub span: Span,
    pub form: Form,
    pub width: usize,
}
