ghost use Rattle.std.specs.Prelude.{◌≡◌, ◌<◌, ◌^◌, ℕ};
ghost use Rattle.rv_insn.specs.Range.{InRange};
ghost use Rattle.rv_insn.specs.Rows.{Fits};

use crate::formats::{b_word, i_word, j_word, r_word, s_word, shift_word, shift_word_32, u_word};
use crate::insn::Insn;
use crate::rows;

// The word of an instruction, by the section of its row.
macro_rules! encoded {
    (($insn:ident)
        op { $($op:ident $op3:literal $op7:literal $op_name:literal;)* }
        op_32 { $($op_32:ident $op_32_3:literal $op_32_7:literal $op_32_name:literal;)* }
        imm { $($imm:ident $imm3:literal $imm_name:literal;)* }
        shift { $($shift:ident $shift3:literal $shift6:literal $shift_name:literal;)* }
        imm_32 { $($imm_32:ident $imm_32_3:literal $imm_32_name:literal;)* }
        shift_32 { $($shift_32:ident $shift_32_3:literal $shift_32_7:literal $shift_32_name:literal;)* }
        load { $($load:ident $load3:literal $load_name:literal;)* }
        store { $($store:ident $store3:literal $store_name:literal;)* }
        branch { $($branch:ident $branch3:literal $branch_name:literal;)* }
        upper { $($upper:ident $upper_opcode:literal $upper_name:literal;)* }
        jump { $($jump:ident $jump_opcode:literal $jump_name:literal;)* }
        jump_register { $($register:ident $register3:literal $register_name:literal;)* }
        fence { $($fence:ident $fence3:literal $fence_name:literal;)* }
        system { $($system:ident $word:literal $system_name:literal;)* }
    ) => {
        match $insn {
            $(Insn::$op { rd, rs1, rs2 } => r_word(0x33, $op3, $op7, rd, rs1, rs2),)*
            $(Insn::$op_32 { rd, rs1, rs2 } => r_word(0x3B, $op_32_3, $op_32_7, rd, rs1, rs2),)*
            $(Insn::$imm { rd, rs1, imm } => i_word(0x13, $imm3, rd, rs1, imm),)*
            $(Insn::$shift { rd, rs1, amount } => shift_word(0x13, $shift3, $shift6, rd, rs1, amount),)*
            $(Insn::$imm_32 { rd, rs1, imm } => i_word(0x1B, $imm_32_3, rd, rs1, imm),)*
            $(Insn::$shift_32 { rd, rs1, amount } => {
                shift_word_32(0x1B, $shift_32_3, $shift_32_7, rd, rs1, amount)
            })*
            $(Insn::$load { rd, rs1, imm } => i_word(0x03, $load3, rd, rs1, imm),)*
            $(Insn::$store { rs1, rs2, imm } => s_word(0x23, $store3, rs1, rs2, imm),)*
            $(Insn::$branch { rs1, rs2, imm } => b_word(0x63, $branch3, rs1, rs2, imm),)*
            $(Insn::$upper { rd, imm } => u_word($upper_opcode, rd, imm),)*
            $(Insn::$jump { rd, imm } => j_word($jump_opcode, rd, imm),)*
            $(Insn::$register { rd, rs1, imm } => i_word(0x67, $register3, rd, rs1, imm),)*
            $(Insn::$fence { word } => word,)*
            $(Insn::$system => $word,)*
        }
    };
}

/// The one word that fits an instruction. An immediate or a register out of the word's range is a
/// bug of the caller's.
pub fn encode(insn: &Insn) -> u32
    requires { InRange insn.now }
    ensures fits { Fits insn.now result }
    ensures only { (word : ℕ) → word < 2 ^ 32 → Fits insn.now word → word ≡ result }
{
    word_of(*insn)
}

#[inline(always)]
fn word_of(insn: Insn) -> u32
    requires { InRange insn }
    ensures { Fits insn result }
{
    rows!(encoded insn)
}
