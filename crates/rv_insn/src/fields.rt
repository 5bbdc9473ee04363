ghost use Rattle.std.specs.Prelude.{◌≡◌, pos};
ghost use Rattle.orc_words.specs.Bits.{bits_at};

use orc_words::Field;

/// Bits 6..0, which name the format.
#[inline(always)]
pub fn opcode(word: u32) -> u32
    ensures { result ≡ bits_at 0 7 word }
{
    Field::<6, 0>::get(word)
}

/// Bits 14..12.
#[inline(always)]
pub fn f3(word: u32) -> u32
    ensures { result ≡ bits_at 12 3 word }
{
    Field::<14, 12>::get(word)
}

/// Bits 31..25.
#[inline(always)]
pub fn f7(word: u32) -> u32
    ensures { result ≡ bits_at 25 7 word }
{
    Field::<31, 25>::get(word)
}

/// Bits 31..26.
#[inline(always)]
pub fn f6(word: u32) -> u32
    ensures { result ≡ bits_at 26 6 word }
{
    Field::<31, 26>::get(word)
}

/// The register that is written.
#[inline(always)]
pub fn rd(word: u32) -> u8
    ensures { result ≡ bits_at 7 5 word }
{
    Field::<11, 7>::get(word) as u8
}

/// The first register that is read.
#[inline(always)]
pub fn rs1(word: u32) -> u8
    ensures { result ≡ bits_at 15 5 word }
{
    Field::<19, 15>::get(word) as u8
}

/// The second register that is read.
#[inline(always)]
pub fn rs2(word: u32) -> u8
    ensures { result ≡ bits_at 20 5 word }
{
    Field::<24, 20>::get(word) as u8
}

/// The amount of a shift of 64 bits.
#[inline(always)]
pub fn amount_6(word: u32) -> i64
    ensures { result ≡ pos (bits_at 20 6 word) }
{
    Field::<25, 20>::get(word) as i64
}

/// The amount of a shift of 32 bits.
#[inline(always)]
pub fn amount_5(word: u32) -> i64
    ensures { result ≡ pos (bits_at 20 5 word) }
{
    Field::<24, 20>::get(word) as i64
}
