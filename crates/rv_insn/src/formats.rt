ghost use Rattle.std.specs.Prelude.{◌≡◌, ◌<◌, ◌≤◌, ◌^◌, pos, true};
ghost use Rattle.orc_words.specs.Bits.{low_of};
ghost use Rattle.rv_insn.specs.Parts.{HasParts};
ghost use Rattle.rv_insn.specs.Range.{RangeR, RangeI, RangeShift, RangeS, RangeB, RangeU, RangeJ, is_number};
ghost use Rattle.rv_insn.specs.Rows.{IsR, IsI, IsShift, IsShiftWord, IsS, IsB, IsU, IsJ};

use orc_words::{with_b, with_i, with_j, with_s, with_u};

/// A word by its parts, from bit 0 up: 7, 5, 3, 5, 5 and 7 bits.
fn word_of_parts(opcode: u32, rd: u8, f3: u32, rs1: u8, rs2: u8, f7: u32) -> u32
    requires opcode_in { opcode < 2 ^ 7 }
    requires rd_in { rd < 2 ^ 5 }
    requires f3_in { f3 < 2 ^ 3 }
    requires rs1_in { rs1 < 2 ^ 5 }
    requires rs2_in { rs2 < 2 ^ 5 }
    requires f7_in { f7 < 2 ^ 7 }
    ensures { HasParts result opcode rd f3 rs1 rs2 f7 }
{
    let low = opcode + rd as u32 * 0x80 + f3 * 0x1000;
    low + rs1 as u32 * 0x8000 + rs2 as u32 * 0x10_0000 + f7 * 0x200_0000
}

/// The low 32 bits of an integer.
fn low_bits(z: i64) -> u32
    ensures { result ≡ low_of 32 z }
{
    (z.cast_unsigned() % 0x1_0000_0000) as u32
}

/// The amount of a shift.
fn amount_bits(amount: i64, bits: u32) -> u32
    requires few { bits ≤ 6 }
    requires in_range { is_number bits amount ≡ true }
    ensures same { pos result ≡ amount }
    ensures small { result < 2 ^ bits }
{
    amount as u32
}

/// A word of format R.
pub fn r_word(opcode: u32, f3: u32, f7: u32, rd: u8, rs1: u8, rs2: u8) -> u32
    requires opcode_in { opcode < 2 ^ 7 }
    requires f3_in { f3 < 2 ^ 3 }
    requires f7_in { f7 < 2 ^ 7 }
    requires in_range { RangeR rd rs1 rs2 }
    ensures { IsR result opcode f3 f7 rd rs1 rs2 }
{
    word_of_parts(opcode, rd, f3, rs1, rs2, f7)
}

/// A word of format I.
pub fn i_word(opcode: u32, f3: u32, rd: u8, rs1: u8, imm: i64) -> u32
    requires opcode_in { opcode < 2 ^ 7 }
    requires f3_in { f3 < 2 ^ 3 }
    requires in_range { RangeI rd rs1 imm }
    ensures { IsI result opcode f3 rd rs1 imm }
{
    with_i(word_of_parts(opcode, rd, f3, rs1, 0, 0), low_bits(imm))
}

/// A word of a shift of 64 bits.
pub fn shift_word(opcode: u32, f3: u32, f6: u32, rd: u8, rs1: u8, amount: i64) -> u32
    requires opcode_in { opcode < 2 ^ 7 }
    requires f3_in { f3 < 2 ^ 3 }
    requires f6_in { f6 < 2 ^ 6 }
    requires in_range { RangeShift rd rs1 amount 6 }
    ensures { IsShift result opcode f3 f6 rd rs1 amount }
{
    let amount = amount_bits(amount, 6);
    word_of_parts(
        opcode,
        rd,
        f3,
        rs1,
        (amount % 32) as u8,
        f6 * 2 + amount / 32,
    )
}

/// A word of a shift of 32 bits.
pub fn shift_word_32(opcode: u32, f3: u32, f7: u32, rd: u8, rs1: u8, amount: i64) -> u32
    requires opcode_in { opcode < 2 ^ 7 }
    requires f3_in { f3 < 2 ^ 3 }
    requires f7_in { f7 < 2 ^ 7 }
    requires in_range { RangeShift rd rs1 amount 5 }
    ensures { IsShiftWord result opcode f3 f7 rd rs1 amount }
{
    word_of_parts(opcode, rd, f3, rs1, amount_bits(amount, 5) as u8, f7)
}

/// A word of format S.
pub fn s_word(opcode: u32, f3: u32, rs1: u8, rs2: u8, imm: i64) -> u32
    requires opcode_in { opcode < 2 ^ 7 }
    requires f3_in { f3 < 2 ^ 3 }
    requires in_range { RangeS rs1 rs2 imm }
    ensures { IsS result opcode f3 rs1 rs2 imm }
{
    with_s(word_of_parts(opcode, 0, f3, rs1, rs2, 0), low_bits(imm))
}

/// A word of format B.
pub fn b_word(opcode: u32, f3: u32, rs1: u8, rs2: u8, imm: i64) -> u32
    requires opcode_in { opcode < 2 ^ 7 }
    requires f3_in { f3 < 2 ^ 3 }
    requires in_range { RangeB rs1 rs2 imm }
    ensures { IsB result opcode f3 rs1 rs2 imm }
{
    with_b(word_of_parts(opcode, 0, f3, rs1, rs2, 0), low_bits(imm))
}

/// A word of format U.
pub fn u_word(opcode: u32, rd: u8, imm: i64) -> u32
    requires opcode_in { opcode < 2 ^ 7 }
    requires in_range { RangeU rd imm }
    ensures { IsU result opcode rd imm }
{
    with_u(
        word_of_parts(opcode, rd, 0, 0, 0, 0),
        low_bits(imm) / 0x1000,
    )
}

/// A word of format J.
pub fn j_word(opcode: u32, rd: u8, imm: i64) -> u32
    requires opcode_in { opcode < 2 ^ 7 }
    requires in_range { RangeJ rd imm }
    ensures { IsJ result opcode rd imm }
{
    with_j(word_of_parts(opcode, rd, 0, 0, 0, 0), low_bits(imm))
}
