//! What each instruction does, once the program counter and its registers are read.

ghost use Rattle.std.specs.Prelude.{◌≡◌, ◌-◌, ◌%◌, ℕ, if◌then◌else◌};
ghost use Rattle.rv_insn.specs.Flat.{insn_of};
ghost use Rattle.rv_hart.specs.declared.hart.Hart.{Hart};
ghost use Rattle.rv_hart.specs.Effects.{done};
ghost use Rattle.rv_hart.specs.Map.{Map};
ghost use Rattle.rv_hart.specs.Registers.{reg};
ghost use Rattle.rv_hart.specs.Step.{row_of, over, jumps, passed};

use crate::arithmetic::{
    difference, difference_32, is_less, is_less_signed, product, product_32, quotient, quotient_32,
    quotient_signed, quotient_signed_32, remainder, remainder_32, remainder_signed,
    remainder_signed_32, shifted_left, shifted_left_32, shifted_right, shifted_right_32,
    shifted_right_signed, shifted_right_signed_32, signed, sum, sum_32, upper_product,
    upper_product_mixed, upper_product_signed, word_of,
};
use rv_insn::{FlatInsn, Kind};

/// What is left of an instruction once its registers are read: a value for its register, a target
/// with or without a link, the address of a load, or that of a store with the value.
#[derive(Clone, Copy)]
pub(crate) enum Effect {
    Writes(u64),
    Passes,
    Goes(u64),
    Links(u64),
    Lb(u64),
    Lh(u64),
    Lw(u64),
    Ld(u64),
    Lbu(u64),
    Lhu(u64),
    Lwu(u64),
    Sb(u64, u64),
    Sh(u64, u64),
    Sw(u64, u64),
    Sd(u64, u64),
    Calls,
    Breaks,
}

impl Effect {
    /// The effect of an instruction, with what its two registers hold.
    #[inline(always)]
    pub(crate) fn of_insn(insn: FlatInsn, pc: u64, a: u64, b: u64) -> Effect
        ensures { (hart : Hart) (map : Map) → hart.pc ≡ pc → reg hart insn.rs1 ≡ a → reg hart insn.rs2 ≡ b → row_of (insn_of insn) hart map ≡ done result insn.rd hart map }
    {
        let imm = word_of(insn.imm);
        match insn.kind {
            Kind::Add => Effect::Writes(sum(a, b)),
            Kind::Sub => Effect::Writes(difference(a, b)),
            Kind::Sll => Effect::Writes(shifted_left(a, b)),
            Kind::Slt => Effect::Writes(is_less_signed(a, b)),
            Kind::Sltu => Effect::Writes(is_less(a, b)),
            Kind::Xor => Effect::Writes(a ^ b),
            Kind::Srl => Effect::Writes(shifted_right(a, b)),
            Kind::Sra => Effect::Writes(shifted_right_signed(a, b)),
            Kind::Or => Effect::Writes(a | b),
            Kind::And => Effect::Writes(a & b),
            Kind::Mul => Effect::Writes(product(a, b)),
            Kind::Mulh => Effect::Writes(upper_product_signed(a, b)),
            Kind::Mulhsu => Effect::Writes(upper_product_mixed(a, b)),
            Kind::Mulhu => Effect::Writes(upper_product(a, b)),
            Kind::Div => Effect::Writes(quotient_signed(a, b)),
            Kind::Divu => Effect::Writes(quotient(a, b)),
            Kind::Rem => Effect::Writes(remainder_signed(a, b)),
            Kind::Remu => Effect::Writes(remainder(a, b)),
            Kind::Addw => Effect::Writes(sum_32(a, b)),
            Kind::Subw => Effect::Writes(difference_32(a, b)),
            Kind::Sllw => Effect::Writes(shifted_left_32(a, b)),
            Kind::Srlw => Effect::Writes(shifted_right_32(a, b)),
            Kind::Sraw => Effect::Writes(shifted_right_signed_32(a, b)),
            Kind::Mulw => Effect::Writes(product_32(a, b)),
            Kind::Divw => Effect::Writes(quotient_signed_32(a, b)),
            Kind::Divuw => Effect::Writes(quotient_32(a, b)),
            Kind::Remw => Effect::Writes(remainder_signed_32(a, b)),
            Kind::Remuw => Effect::Writes(remainder_32(a, b)),
            Kind::Addi => Effect::Writes(sum(a, imm)),
            Kind::Slti => Effect::Writes(is_less_signed(a, imm)),
            Kind::Sltiu => Effect::Writes(is_less(a, imm)),
            Kind::Xori => Effect::Writes(a ^ imm),
            Kind::Ori => Effect::Writes(a | imm),
            Kind::Andi => Effect::Writes(a & imm),
            Kind::Slli => Effect::Writes(shifted_left(a, imm)),
            Kind::Srli => Effect::Writes(shifted_right(a, imm)),
            Kind::Srai => Effect::Writes(shifted_right_signed(a, imm)),
            Kind::Addiw => Effect::Writes(sum_32(a, imm)),
            Kind::Slliw => Effect::Writes(shifted_left_32(a, imm)),
            Kind::Srliw => Effect::Writes(shifted_right_32(a, imm)),
            Kind::Sraiw => Effect::Writes(shifted_right_signed_32(a, imm)),
            Kind::Lb => Effect::Lb(sum(a, imm)),
            Kind::Lh => Effect::Lh(sum(a, imm)),
            Kind::Lw => Effect::Lw(sum(a, imm)),
            Kind::Ld => Effect::Ld(sum(a, imm)),
            Kind::Lbu => Effect::Lbu(sum(a, imm)),
            Kind::Lhu => Effect::Lhu(sum(a, imm)),
            Kind::Lwu => Effect::Lwu(sum(a, imm)),
            Kind::Sb => Effect::Sb(sum(a, imm), b),
            Kind::Sh => Effect::Sh(sum(a, imm), b),
            Kind::Sw => Effect::Sw(sum(a, imm), b),
            Kind::Sd => Effect::Sd(sum(a, imm), b),
            Kind::Beq => branch(a == b, sum(pc, imm)),
            Kind::Bne => branch(a != b, sum(pc, imm)),
            Kind::Blt => branch(signed(a) < signed(b), sum(pc, imm)),
            Kind::Bge => branch(signed(a) >= signed(b), sum(pc, imm)),
            Kind::Bltu => branch(a < b, sum(pc, imm)),
            Kind::Bgeu => branch(a >= b, sum(pc, imm)),
            Kind::Lui => Effect::Writes(imm),
            Kind::Auipc => Effect::Writes(sum(pc, imm)),
            Kind::Jal => Effect::Links(sum(pc, imm)),
            Kind::Jalr => Effect::Links(even(sum(a, imm))),
            Kind::Fence => Effect::Passes,
            Kind::Ecall => Effect::Calls,
            Kind::Ebreak => Effect::Breaks,
        }
    }
}

/// A branch to a target, if it is taken.
#[inline(always)]
fn branch(taken: bool, target: u64) -> Effect
    ensures { (rd : ℕ) (hart : Hart) (map : Map) → done result rd hart map ≡ over map (if taken then jumps hart 0 target else passed hart) }
{
    if taken {
        Effect::Goes(target)
    } else {
        Effect::Passes
    }
}

/// The target of a jump, whose bit 0 is cleared.
#[inline(always)]
fn even(target: u64) -> u64
    ensures { result ≡ target - target % 2 }
{
    target - target % 2
}
