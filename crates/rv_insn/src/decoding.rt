ghost use Rattle.std.specs.Prelude.{◌≡◌, IfOk, OnErr};
ghost use Rattle.orc_words.specs.Bits.{bits_at};
ghost use Rattle.rv_insn.specs.Flat.{insn_of, HasRegisters};
ghost use Rattle.rv_insn.specs.Range.{InRange};
ghost use Rattle.rv_insn.specs.Rows.{Fits};
ghost use Rattle.rv_insn.specs.declared.insn.Insn.{Insn};

use crate::fields::{amount_5, amount_6, f3, f6, f7, opcode, rd, rs1, rs2};
use crate::flat::FlatInsn;
use crate::insn::{Illegal, Insn};
use crate::rows;
use orc_words::{b_immediate, i_immediate, j_immediate, s_immediate, u_immediate};

// The instruction of a section's rows with these bits and fields.
macro_rules! decoded {
    ((op $f3:ident $f7:ident $rd:ident $rs1:ident $rs2:ident)
        op { $($row:ident $row3:literal $row7:literal $name:literal;)* } $($rest:tt)*) => {
        match ($f3, $f7) {
            $(($row3, $row7) => Ok(Insn::$row { rd: $rd, rs1: $rs1, rs2: $rs2 }),)*
            _ => Err(Illegal),
        }
    };
    ((op_32 $($of:ident)*) op $op:tt op_32 $rows:tt $($rest:tt)*) => {
        decoded!((op $($of)*) op $rows)
    };
    ((imm $f3:ident $high:ident $rd:ident $rs1:ident $imm:ident $amount:ident)
        op $op:tt op_32 $op_32:tt
        imm { $($row:ident $row3:literal $name:literal;)* }
        shift { $($shift:ident $shift3:literal $shift_high:literal $shift_name:literal;)* }
        $($rest:tt)*) => {
        match ($f3, $high) {
            $(($row3, _) => Ok(Insn::$row { rd: $rd, rs1: $rs1, imm: $imm }),)*
            $(($shift3, $shift_high) => Ok(Insn::$shift { rd: $rd, rs1: $rs1, amount: $amount }),)*
            _ => Err(Illegal),
        }
    };
    ((imm_32 $($of:ident)*)
        op $op:tt op_32 $op_32:tt imm $imm:tt shift $shift:tt
        imm_32 $imm_32:tt shift_32 $shift_32:tt $($rest:tt)*) => {
        decoded!((imm $($of)*) op $op op_32 $op_32 imm $imm_32 shift $shift_32)
    };
    ((load $f3:ident $rd:ident $rs1:ident $imm:ident)
        op $op:tt op_32 $op_32:tt imm $i:tt shift $shift:tt imm_32 $imm_32:tt shift_32 $shift_32:tt
        load { $($row:ident $row3:literal $name:literal;)* } $($rest:tt)*) => {
        match $f3 {
            $($row3 => Ok(Insn::$row { rd: $rd, rs1: $rs1, imm: $imm }),)*
            _ => Err(Illegal),
        }
    };
    ((store $f3:ident $rs1:ident $rs2:ident $imm:ident)
        op $op:tt op_32 $op_32:tt imm $i:tt shift $shift:tt imm_32 $imm_32:tt shift_32 $shift_32:tt
        load $load:tt
        store { $($row:ident $row3:literal $name:literal;)* } $($rest:tt)*) => {
        match $f3 {
            $($row3 => Ok(Insn::$row { rs1: $rs1, rs2: $rs2, imm: $imm }),)*
            _ => Err(Illegal),
        }
    };
    ((branch $($of:ident)*)
        op $op:tt op_32 $op_32:tt imm $i:tt shift $shift:tt imm_32 $imm_32:tt shift_32 $shift_32:tt
        load $load:tt store $store:tt branch $rows:tt $($rest:tt)*) => {
        decoded!((store $($of)*)
            op $op op_32 $op_32 imm $i shift $shift imm_32 $imm_32 shift_32 $shift_32
            load $load store $rows)
    };
}

/// The one instruction whose row fits the word; `Illegal` where no row does.
#[inline(always)]
pub fn decode(word: u32) -> Result<Insn, Illegal>
    ensures found { IfOk result (λ i. Fits i word) }
    ensures illegal { OnErr result ((i : Insn) → Fits i word → ⊥) }
    ensures only { IfOk result (λ i. (j : Insn) → Fits j word → j ≡ i) }
    ensures in_range { IfOk result InRange }
{
    fitting(word)
}

/// The same with its parts side by side.
#[inline(always)]
pub fn decode_flat(word: u32) -> Result<FlatInsn, Illegal>
    ensures found { IfOk result (λ i. Fits (insn_of i) word) }
    ensures illegal { OnErr result ((i : Insn) → Fits i word → ⊥) }
    ensures registers { IfOk result HasRegisters }
{
    Ok(FlatInsn::of_insn(decode(word)?))
}

#[inline(always)]
fn fitting(word: u32) -> Result<Insn, Illegal>
    ensures found { IfOk result (λ i. Fits i word) }
    ensures illegal { OnErr result ((i : Insn) → Fits i word → ⊥) }
{
    match opcode(word) {
        0x33 => op(word),
        0x3B => op_32(word),
        0x13 => imm(word),
        0x1B => imm_32(word),
        0x03 => load(word),
        0x23 => store(word),
        0x63 => branch(word),
        0x37 => Ok(Insn::Lui {
            rd: rd(word),
            imm: u_immediate(word),
        }),
        0x17 => Ok(Insn::Auipc {
            rd: rd(word),
            imm: u_immediate(word),
        }),
        0x6F => Ok(Insn::Jal {
            rd: rd(word),
            imm: j_immediate(word),
        }),
        0x67 => jump_register(word),
        0x0F => fence(word),
        0x73 => system(word),
        _ => Err(Illegal),
    }
}

#[inline(always)]
fn op(word: u32) -> Result<Insn, Illegal>
    requires { bits_at 0 7 word ≡ 0x33 }
    ensures found { IfOk result (λ i. Fits i word) }
    ensures illegal { OnErr result ((i : Insn) → Fits i word → ⊥) }
{
    let (f3, f7) = (f3(word), f7(word));
    let (rd, rs1, rs2) = (rd(word), rs1(word), rs2(word));
    rows!(decoded op f3 f7 rd rs1 rs2)
}

#[inline(always)]
fn op_32(word: u32) -> Result<Insn, Illegal>
    requires { bits_at 0 7 word ≡ 0x3B }
    ensures found { IfOk result (λ i. Fits i word) }
    ensures illegal { OnErr result ((i : Insn) → Fits i word → ⊥) }
{
    let (f3, f7) = (f3(word), f7(word));
    let (rd, rs1, rs2) = (rd(word), rs1(word), rs2(word));
    rows!(decoded op_32 f3 f7 rd rs1 rs2)
}

#[inline(always)]
fn imm(word: u32) -> Result<Insn, Illegal>
    requires { bits_at 0 7 word ≡ 0x13 }
    ensures found { IfOk result (λ i. Fits i word) }
    ensures illegal { OnErr result ((i : Insn) → Fits i word → ⊥) }
{
    let (f3, f6) = (f3(word), f6(word));
    let (rd, rs1) = (rd(word), rs1(word));
    let (imm, amount) = (i_immediate(word), amount_6(word));
    rows!(decoded imm f3 f6 rd rs1 imm amount)
}

#[inline(always)]
fn imm_32(word: u32) -> Result<Insn, Illegal>
    requires { bits_at 0 7 word ≡ 0x1B }
    ensures found { IfOk result (λ i. Fits i word) }
    ensures illegal { OnErr result ((i : Insn) → Fits i word → ⊥) }
{
    let (f3, f7) = (f3(word), f7(word));
    let (rd, rs1) = (rd(word), rs1(word));
    let (imm, amount) = (i_immediate(word), amount_5(word));
    rows!(decoded imm_32 f3 f7 rd rs1 imm amount)
}

#[inline(always)]
fn load(word: u32) -> Result<Insn, Illegal>
    requires { bits_at 0 7 word ≡ 0x03 }
    ensures found { IfOk result (λ i. Fits i word) }
    ensures illegal { OnErr result ((i : Insn) → Fits i word → ⊥) }
{
    let (f3, rd, rs1, imm) = (f3(word), rd(word), rs1(word), i_immediate(word));
    rows!(decoded load f3 rd rs1 imm)
}

#[inline(always)]
fn store(word: u32) -> Result<Insn, Illegal>
    requires { bits_at 0 7 word ≡ 0x23 }
    ensures found { IfOk result (λ i. Fits i word) }
    ensures illegal { OnErr result ((i : Insn) → Fits i word → ⊥) }
{
    let (f3, rs1, rs2, imm) = (f3(word), rs1(word), rs2(word), s_immediate(word));
    rows!(decoded store f3 rs1 rs2 imm)
}

#[inline(always)]
fn branch(word: u32) -> Result<Insn, Illegal>
    requires { bits_at 0 7 word ≡ 0x63 }
    ensures found { IfOk result (λ i. Fits i word) }
    ensures illegal { OnErr result ((i : Insn) → Fits i word → ⊥) }
{
    let (f3, rs1, rs2, imm) = (f3(word), rs1(word), rs2(word), b_immediate(word));
    rows!(decoded branch f3 rs1 rs2 imm)
}

#[inline(always)]
fn jump_register(word: u32) -> Result<Insn, Illegal>
    requires { bits_at 0 7 word ≡ 0x67 }
    ensures found { IfOk result (λ i. Fits i word) }
    ensures illegal { OnErr result ((i : Insn) → Fits i word → ⊥) }
{
    match f3(word) {
        0 => Ok(Insn::Jalr {
            rd: rd(word),
            rs1: rs1(word),
            imm: i_immediate(word),
        }),
        _ => Err(Illegal),
    }
}

#[inline(always)]
fn fence(word: u32) -> Result<Insn, Illegal>
    requires { bits_at 0 7 word ≡ 0x0F }
    ensures found { IfOk result (λ i. Fits i word) }
    ensures illegal { OnErr result ((i : Insn) → Fits i word → ⊥) }
{
    match f3(word) {
        0 => Ok(Insn::Fence { word }),
        _ => Err(Illegal),
    }
}

#[inline(always)]
fn system(word: u32) -> Result<Insn, Illegal>
    requires { bits_at 0 7 word ≡ 0x73 }
    ensures found { IfOk result (λ i. Fits i word) }
    ensures illegal { OnErr result ((i : Insn) → Fits i word → ⊥) }
{
    match word {
        0x0000_0073 => Ok(Insn::Ecall),
        0x0010_0073 => Ok(Insn::Ebreak),
        _ => Err(Illegal),
    }
}
