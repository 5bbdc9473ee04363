ghost use Rattle.std.specs.Prelude.{◌≡◌, ℕ, ◌+◌, ◌-◌, ◌^◌, ◌<◌, ◌≤◌, ◌⊎◌};
ghost use Rattle.std.specs.Int.{bit_at};
ghost use Rattle.orc_words.specs.Bits.{bits_at, with_bits};

/// The bits `HI` down to `LO` of a 32-bit word, as the manual's `inst[HI:LO]`.
pub struct Field<const HI: u32, const LO: u32>;

impl<const HI: u32, const LO: u32> Field<HI, LO> {
    /// The bits of the field as a number.
    pub fn get(word: u32) -> u32
        requires order { LO ≤ HI }
        requires inside { HI < 32 }
        ensures exact { result ≡ bits_at LO (HI + 1 - LO) word }
        ensures bound { result < 2 ^ (HI + 1 - LO) }
    {
        part_of(word as u64, LO, HI + 1 - LO) as u32
    }

    /// The word with the bits of the field replaced by `part`.
    pub fn put(word: u32, part: u32) -> u32
        requires order { LO ≤ HI }
        requires inside { HI < 32 }
        requires fits { part < 2 ^ (HI + 1 - LO) }
        ensures exact { result ≡ with_bits LO (HI + 1 - LO) word part }
        ensures reads_back { bits_at LO (HI + 1 - LO) result ≡ part }
        ensures others { (i : ℕ) → (i < LO) ⊎ (HI < i) → bit_at result i ≡ bit_at word i }
    {
        replaced(word as u64, LO, HI + 1 - LO, part as u64) as u32
    }
}

fn part_of(word: u64, low: u32, count: u32) -> u64
    requires low { low < 32 }
    requires count { count ≤ 32 }
    requires word { word < 2 ^ 32 }
    ensures exact { result ≡ bits_at low count word }
    ensures bound { result < 2 ^ count }
{
    (word >> low) & ((1 << count) - 1)
}

fn replaced(word: u64, low: u32, count: u32, part: u64) -> u64
    requires inside { low + count ≤ 32 }
    requires word { word < 2 ^ 32 }
    requires part { part < 2 ^ count }
    ensures exact { result ≡ with_bits low count word part }
    ensures bound { result < 2 ^ 32 }
{
    let high = low + count;
    ((word >> high) << high) + (part << low) + (word & ((1 << low) - 1))
}
