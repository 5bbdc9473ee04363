ghost use Rattle.std.specs.Prelude.{◌≡◌, ℕ, ◌*◌, ◌%◌, ◌^◌};
ghost use Rattle.std.specs.Int.{bit_at};
ghost use Rattle.orc_words.specs.Bits.{signed_of};
ghost use Rattle.orc_words.specs.Immediates.{s_bits, b_bits, j_bits, i_immediate, s_immediate, b_immediate, u_immediate, j_immediate, with_i, with_s, with_b, with_u, with_j, OutsideI, OutsideS, OutsideB, OutsideU, OutsideJ};

use crate::field::Field;
use crate::signed::sign_extend;

/// The immediate of format I.
#[tactic(auto, unfolding(crate::specs::Immediates::i_immediate, crate::specs::Immediates::i_bits))]
pub fn i_immediate(word: u32) -> i64
    ensures { result ≡ i_immediate word }
{
    sign_extend::<12>(Field::<31, 20>::get(word) as u64)
}

/// The immediate of format S.
#[tactic(auto, unfolding(crate::specs::Immediates::s_immediate))]
pub fn s_immediate(word: u32) -> i64
    ensures { result ≡ s_immediate word }
{
    sign_extend::<12>(s_bits(word))
}

/// The immediate of format B, which is even.
#[tactic(auto, unfolding(crate::specs::Immediates::b_immediate))]
pub fn b_immediate(word: u32) -> i64
    ensures { result ≡ b_immediate word }
{
    sign_extend::<13>(b_bits(word))
}

/// The immediate of format U: the signed value of the upper part with twelve zero bits below it.
#[tactic(auto, unfolding(crate::specs::Immediates::u_immediate, crate::specs::Immediates::u_bits))]
pub fn u_immediate(word: u32) -> i64
    ensures { result ≡ u_immediate word }
{
    sign_extend::<32>(Field::<31, 12>::get(word) as u64 * 4096)
}

/// The immediate of format J, which is even.
#[tactic(auto, unfolding(crate::specs::Immediates::j_immediate))]
pub fn j_immediate(word: u32) -> i64
    ensures { result ≡ j_immediate word }
{
    sign_extend::<21>(j_bits(word))
}

#[tactic(auto, unfolding(crate::specs::Immediates::s_bits))]
fn s_bits(word: u32) -> u64
    ensures { result ≡ s_bits word }
{
    Field::<31, 25>::get(word) as u64 * 32 + Field::<11, 7>::get(word) as u64
}

#[tactic(auto, unfolding(crate::specs::Immediates::b_bits))]
fn b_bits(word: u32) -> u64
    ensures { result ≡ b_bits word }
{
    Field::<31, 31>::get(word) as u64 * 4096
        + Field::<7, 7>::get(word) as u64 * 2048
        + Field::<30, 25>::get(word) as u64 * 32
        + Field::<11, 8>::get(word) as u64 * 2
}

#[tactic(auto, unfolding(crate::specs::Immediates::j_bits))]
fn j_bits(word: u32) -> u64
    ensures { result ≡ j_bits word }
{
    Field::<31, 31>::get(word) as u64 * 0x10_0000
        + Field::<19, 12>::get(word) as u64 * 4096
        + Field::<20, 20>::get(word) as u64 * 2048
        + Field::<30, 21>::get(word) as u64 * 2
}

/// The word with the immediate of format I replaced by the low 12 bits of `part`.
#[tactic(auto, unfolding(crate::specs::Immediates::with_i))]
pub fn with_i(word: u32, part: u32) -> u32
    ensures exact { result ≡ with_i word part }
    ensures reads_back { i_immediate result ≡ signed_of 12 part }
    ensures others { (i : ℕ) → OutsideI i → bit_at result i ≡ bit_at word i }
{
    Field::<31, 20>::put(word, Field::<11, 0>::get(part))
}

/// The word with the immediate of format S replaced by the low 12 bits of `part`.
#[tactic(auto, unfolding(crate::specs::Immediates::with_s))]
pub fn with_s(word: u32, part: u32) -> u32
    ensures exact { result ≡ with_s word part }
    ensures reads_back { s_immediate result ≡ signed_of 12 part }
    ensures others { (i : ℕ) → OutsideS i → bit_at result i ≡ bit_at word i }
{
    let word = Field::<11, 7>::put(word, Field::<4, 0>::get(part));
    Field::<31, 25>::put(word, Field::<11, 5>::get(part))
}

/// The word with the immediate of format B replaced by the low 13 bits of `part`, bit 0 left out.
#[tactic(auto, unfolding(crate::specs::Immediates::with_b))]
pub fn with_b(word: u32, part: u32) -> u32
    ensures exact { result ≡ with_b word part }
    ensures reads_back { part % 2 ≡ 0 → b_immediate result ≡ signed_of 13 part }
    ensures others { (i : ℕ) → OutsideB i → bit_at result i ≡ bit_at word i }
{
    let word = Field::<7, 7>::put(word, Field::<11, 11>::get(part));
    let word = Field::<11, 8>::put(word, Field::<4, 1>::get(part));
    let word = Field::<30, 25>::put(word, Field::<10, 5>::get(part));
    Field::<31, 31>::put(word, Field::<12, 12>::get(part))
}

/// The word with the immediate of format U replaced by the low 20 bits of `part`, the upper part.
#[tactic(auto, unfolding(crate::specs::Immediates::with_u))]
pub fn with_u(word: u32, part: u32) -> u32
    ensures exact { result ≡ with_u word part }
    ensures reads_back { u_immediate result ≡ signed_of 32 (part * 2 ^ 12) }
    ensures others { (i : ℕ) → OutsideU i → bit_at result i ≡ bit_at word i }
{
    Field::<31, 12>::put(word, Field::<19, 0>::get(part))
}

/// The word with the immediate of format J replaced by the low 21 bits of `part`, bit 0 left out.
#[tactic(auto, unfolding(crate::specs::Immediates::with_j))]
pub fn with_j(word: u32, part: u32) -> u32
    ensures exact { result ≡ with_j word part }
    ensures reads_back { part % 2 ≡ 0 → j_immediate result ≡ signed_of 21 part }
    ensures others { (i : ℕ) → OutsideJ i → bit_at result i ≡ bit_at word i }
{
    let word = Field::<19, 12>::put(word, Field::<19, 12>::get(part));
    let word = Field::<20, 20>::put(word, Field::<11, 11>::get(part));
    let word = Field::<30, 21>::put(word, Field::<10, 1>::get(part));
    Field::<31, 31>::put(word, Field::<20, 20>::get(part))
}
