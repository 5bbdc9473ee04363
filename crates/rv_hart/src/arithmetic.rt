//! Arithmetic on 64-bit words, a function for each form of it.

ghost use Rattle.std.specs.Prelude.{◌≡◌, ◌<◌, ◌≤◌, ◌*◌, ◌/◌, ◌%◌, ◌^◌, ◌⊎◌};
ghost use Rattle.orc_words.specs.Bits.{signed_of};
ghost use Rattle.rv_hart.specs.Arithmetic.{word_of, signed, extended, sum, difference, is_less, is_less_signed, sum_32, difference_32, shifted_left, shifted_right, shifted_right_signed, shifted_left_32, shifted_right_32, shifted_right_signed_32, product, upper_product, upper_product_signed, upper_product_mixed, product_32, quotient, remainder, quotient_signed, remainder_signed, quotient_32, remainder_32, quotient_signed_32, remainder_signed_32};

use orc_words::sign_extend;

/// The word of an integer.
#[tactic(auto, unfolding(crate::specs::Arithmetic::word_of))]
#[inline(always)]
pub fn word_of(z: i64) -> u64
    ensures { result ≡ word_of z }
{
    z.cast_unsigned()
}

/// The integer of a word.
#[tactic(auto, unfolding(crate::specs::Arithmetic::signed))]
#[inline(always)]
pub fn signed(a: u64) -> i64
    ensures { result ≡ signed a }
{
    a.cast_signed()
}

/// The low `BITS` bits, sign-extended to a word.
#[tactic(auto, unfolding(crate::specs::Arithmetic::extended))]
#[inline(always)]
pub fn extended<const BITS: u32>(a: u64) -> u64
    requires low { 1 ≤ BITS }
    requires high { BITS ≤ 64 }
    ensures { result ≡ extended BITS a }
{
    word_of(sign_extend::<BITS>(a))
}

/// The low bytes, sign-extended to a word.
#[inline(always)]
pub fn extended_bytes(a: u64, width: u8) -> u64
    requires { (width ≡ 1) ⊎ (width ≡ 2) ⊎ (width ≡ 4) }
    ensures { result ≡ extended (8 * width) a }
{
    match width {
        1 => extended::<8>(a),
        2 => extended::<16>(a),
        _ => extended::<32>(a),
    }
}

/// The low 32 bits.
#[inline(always)]
fn low(a: u64) -> u64
    ensures exact { result ≡ a % 2 ^ 32 }
    ensures small { result < 2 ^ 32 }
{
    a % 0x1_0000_0000
}

/// The integer of the low 32 bits.
#[inline(always)]
fn signed_32(a: u64) -> i64
    ensures { result ≡ signed_of 32 a }
{
    sign_extend::<32>(a)
}

/// The sum of two words, without the carry.
#[inline(always)]
pub fn sum(a: u64, b: u64) -> u64
    ensures { result ≡ sum a b }
{
    a.wrapping_add(b)
}

/// The difference of two words, without the borrow.
#[inline(always)]
pub fn difference(a: u64, b: u64) -> u64
    ensures { result ≡ difference a b }
{
    a.wrapping_sub(b)
}

/// 1 where `a` is below `b`.
#[inline(always)]
pub fn is_less(a: u64, b: u64) -> u64
    ensures { result ≡ is_less a b }
{
    u64::from(a < b)
}

/// 1 where `a` is below `b`, both signed.
#[inline(always)]
pub fn is_less_signed(a: u64, b: u64) -> u64
    ensures { result ≡ is_less_signed a b }
{
    u64::from(signed(a) < signed(b))
}

/// The sum of two words of 32 bits.
#[inline(always)]
pub fn sum_32(a: u64, b: u64) -> u64
    ensures { result ≡ sum_32 a b }
{
    extended::<32>(sum(a, b))
}

/// The difference of two words of 32 bits.
#[inline(always)]
pub fn difference_32(a: u64, b: u64) -> u64
    ensures { result ≡ difference_32 a b }
{
    extended::<32>(difference(a, b))
}

/// `a` shifted to the left.
#[inline(always)]
pub fn shifted_left(a: u64, b: u64) -> u64
    ensures { result ≡ shifted_left a b }
{
    a << (b % 64)
}

/// `a` shifted to the right, with zeros.
#[inline(always)]
pub fn shifted_right(a: u64, b: u64) -> u64
    ensures { result ≡ shifted_right a b }
{
    a >> (b % 64)
}

/// `a` shifted to the right, with its sign.
#[inline(always)]
pub fn shifted_right_signed(a: u64, b: u64) -> u64
    ensures { result ≡ shifted_right_signed a b }
{
    word_of(signed(a) >> (b % 64))
}

/// 32 bits shifted to the left.
#[inline(always)]
pub fn shifted_left_32(a: u64, b: u64) -> u64
    ensures { result ≡ shifted_left_32 a b }
{
    extended::<32>(low(a) << (b % 32))
}

/// 32 bits shifted to the right, with zeros.
#[inline(always)]
pub fn shifted_right_32(a: u64, b: u64) -> u64
    ensures { result ≡ shifted_right_32 a b }
{
    extended::<32>(low(a) >> (b % 32))
}

/// 32 bits shifted to the right, with their sign.
#[inline(always)]
pub fn shifted_right_signed_32(a: u64, b: u64) -> u64
    ensures { result ≡ shifted_right_signed_32 a b }
{
    word_of(signed_32(a) >> (b % 32))
}

/// The product of two words.
#[inline(always)]
pub fn product(a: u64, b: u64) -> u64
    ensures { result ≡ product a b }
{
    a.wrapping_mul(b)
}

/// The upper half of a product.
#[inline(always)]
pub fn upper_product(a: u64, b: u64) -> u64
    ensures { result ≡ upper_product a b }
{
    ((a as u128 * b as u128) >> 64) as u64
}

/// The upper half of a product of signed words.
#[inline(always)]
pub fn upper_product_signed(a: u64, b: u64) -> u64
    ensures { result ≡ upper_product_signed a b }
{
    word_of(((signed(a) as i128 * signed(b) as i128) >> 64) as i64)
}

/// The upper half of the product of a signed word and an unsigned one.
#[inline(always)]
pub fn upper_product_mixed(a: u64, b: u64) -> u64
    ensures { result ≡ upper_product_mixed a b }
{
    word_of(((signed(a) as i128 * b as i128) >> 64) as i64)
}

/// The product of two words of 32 bits.
#[inline(always)]
pub fn product_32(a: u64, b: u64) -> u64
    ensures { result ≡ product_32 a b }
{
    extended::<32>(product(a, b))
}

/// The quotient; by zero all ones.
#[inline(always)]
pub fn quotient(a: u64, b: u64) -> u64
    ensures { result ≡ quotient a b }
{
    if b == 0 { u64::MAX } else { a / b }
}

/// The remainder; by zero the dividend.
#[inline(always)]
pub fn remainder(a: u64, b: u64) -> u64
    ensures { result ≡ remainder a b }
{
    if b == 0 { a } else { a % b }
}

/// The quotient of signed words, rounded towards zero; by zero all ones.
#[inline(always)]
pub fn quotient_signed(a: u64, b: u64) -> u64
    ensures { result ≡ quotient_signed a b }
{
    if b == 0 {
        u64::MAX
    } else {
        word_of(signed(a).wrapping_div(signed(b)))
    }
}

/// The remainder of signed words, with the sign of the dividend; by zero the dividend.
#[inline(always)]
pub fn remainder_signed(a: u64, b: u64) -> u64
    ensures { result ≡ remainder_signed a b }
{
    if b == 0 {
        a
    } else {
        word_of(signed(a).wrapping_rem(signed(b)))
    }
}

/// The quotient of words of 32 bits; by zero all ones.
#[inline(always)]
pub fn quotient_32(a: u64, b: u64) -> u64
    ensures { result ≡ quotient_32 a b }
{
    if low(b) == 0 {
        u64::MAX
    } else {
        extended::<32>(low(a) / low(b))
    }
}

/// The remainder of words of 32 bits; by zero the dividend.
#[inline(always)]
pub fn remainder_32(a: u64, b: u64) -> u64
    ensures { result ≡ remainder_32 a b }
{
    if low(b) == 0 {
        extended::<32>(a)
    } else {
        extended::<32>(low(a) % low(b))
    }
}

/// The quotient of signed words of 32 bits, rounded towards zero; by zero all ones.
#[inline(always)]
pub fn quotient_signed_32(a: u64, b: u64) -> u64
    ensures { result ≡ quotient_signed_32 a b }
{
    if low(b) == 0 {
        u64::MAX
    } else {
        extended::<32>(word_of(signed_32(a) / signed_32(b)))
    }
}

/// The remainder of signed words of 32 bits, with the sign of the dividend; by zero the dividend.
#[inline(always)]
pub fn remainder_signed_32(a: u64, b: u64) -> u64
    ensures { result ≡ remainder_signed_32 a b }
{
    if low(b) == 0 {
        extended::<32>(a)
    } else {
        word_of(signed_32(a) % signed_32(b))
    }
}
