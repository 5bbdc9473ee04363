ghost use Rattle.std.specs.Prelude.{◌≡◌};
ghost use Rattle.rv_insn.specs.Flat.{insn_of, HasRegisters};
ghost use Rattle.rv_insn.specs.Range.{InRange};

use crate::insn::Insn;
use crate::rows;

/// Which of the 65 instructions.
#[derive(Clone, Copy)]
pub enum Kind {
    Add,
    Sub,
    Sll,
    Slt,
    Sltu,
    Xor,
    Srl,
    Sra,
    Or,
    And,
    Mul,
    Mulh,
    Mulhsu,
    Mulhu,
    Div,
    Divu,
    Rem,
    Remu,
    Addw,
    Subw,
    Sllw,
    Srlw,
    Sraw,
    Mulw,
    Divw,
    Divuw,
    Remw,
    Remuw,
    Addi,
    Slti,
    Sltiu,
    Xori,
    Ori,
    Andi,
    Slli,
    Srli,
    Srai,
    Addiw,
    Slliw,
    Srliw,
    Sraiw,
    Lb,
    Lh,
    Lw,
    Ld,
    Lbu,
    Lhu,
    Lwu,
    Sb,
    Sh,
    Sw,
    Sd,
    Beq,
    Bne,
    Blt,
    Bge,
    Bltu,
    Bgeu,
    Lui,
    Auipc,
    Jal,
    Jalr,
    Fence,
    Ecall,
    Ebreak,
}

/// An instruction with its parts side by side. What its kind has no use for is 0, and the immediate
/// of a fence is its whole word. Contracts read it as the `Insn` that it is (`insn_of`).
#[derive(Clone, Copy)]
pub struct FlatInsn {
    pub kind: Kind,
    pub rd: u8,
    pub rs1: u8,
    pub rs2: u8,
    pub imm: i64,
}

/// The parts of an instruction.
#[inline(always)]
fn flat(kind: Kind, rd: u8, rs1: u8, rs2: u8, imm: i64) -> FlatInsn
    ensures { result ≡ record { kind = kind; rd = rd; rs1 = rs1; rs2 = rs2; imm = imm } }
{
    FlatInsn {
        kind,
        rd,
        rs1,
        rs2,
        imm,
    }
}

// The parts of an instruction, by the section of its row.
macro_rules! flattened {
    (($insn:ident)
        op { $($op:ident $op3:literal $op7:literal $op_name:literal;)* }
        op_32 { $($op_32:ident $op_32_3:literal $op_32_7:literal $op_32_name:literal;)* }
        imm { $($imm:ident $imm3:literal $imm_name:literal;)* }
        shift { $($shift:ident $shift3:literal $shift6:literal $shift_name:literal;)* }
        imm_32 { $($imm_32:ident $imm_32_3:literal $imm_32_name:literal;)* }
        shift_32 { $($shift_32:ident $shift_32_3:literal $shift_32_7:literal $shift_32_name:literal;)* }
        load { $($load:ident $load3:literal $load_name:literal;)* }
        store { $($store:ident $store3:literal $store_name:literal;)* }
        branch { $($branch:ident $branch3:literal $branch_name:literal;)* }
        upper { $($upper:ident $upper_opcode:literal $upper_name:literal;)* }
        jump { $($jump:ident $jump_opcode:literal $jump_name:literal;)* }
        jump_register { $($register:ident $register3:literal $register_name:literal;)* }
        fence { $($fence:ident $fence3:literal $fence_name:literal;)* }
        system { $($system:ident $word:literal $system_name:literal;)* }
    ) => {
        match $insn {
            $(Insn::$op { rd, rs1, rs2 } => flat(Kind::$op, rd, rs1, rs2, 0),)*
            $(Insn::$op_32 { rd, rs1, rs2 } => flat(Kind::$op_32, rd, rs1, rs2, 0),)*
            $(Insn::$imm { rd, rs1, imm } => flat(Kind::$imm, rd, rs1, 0, imm),)*
            $(Insn::$shift { rd, rs1, amount } => flat(Kind::$shift, rd, rs1, 0, amount),)*
            $(Insn::$imm_32 { rd, rs1, imm } => flat(Kind::$imm_32, rd, rs1, 0, imm),)*
            $(Insn::$shift_32 { rd, rs1, amount } => flat(Kind::$shift_32, rd, rs1, 0, amount),)*
            $(Insn::$load { rd, rs1, imm } => flat(Kind::$load, rd, rs1, 0, imm),)*
            $(Insn::$store { rs1, rs2, imm } => flat(Kind::$store, 0, rs1, rs2, imm),)*
            $(Insn::$branch { rs1, rs2, imm } => flat(Kind::$branch, 0, rs1, rs2, imm),)*
            $(Insn::$upper { rd, imm } => flat(Kind::$upper, rd, 0, 0, imm),)*
            $(Insn::$jump { rd, imm } => flat(Kind::$jump, rd, 0, 0, imm),)*
            $(Insn::$register { rd, rs1, imm } => flat(Kind::$register, rd, rs1, 0, imm),)*
            $(Insn::$fence { word } => flat(Kind::$fence, 0, 0, 0, i64::from(word)),)*
            $(Insn::$system => flat(Kind::$system, 0, 0, 0, 0),)*
        }
    };
}

impl FlatInsn {
    /// The parts of an instruction.
    #[inline(always)]
    pub fn of_insn(insn: Insn) -> FlatInsn
        requires { InRange insn }
        ensures same { insn_of result ≡ insn }
        ensures registers { HasRegisters result }
    {
        rows!(flattened insn)
    }
}
