ghost use Rattle.std.specs.Prelude.{◌≡◌, ℕ, ◌*◌, ◌^◌, ◌<◌, ◌≤◌, pos, ◌+ℤ◌};
ghost use Rattle.orc_words.specs.Bits.{low_of};
ghost use Rattle.link_model.specs.Kinds.{up_of, low_part};

/// The low `N` bits of a value.
pub fn low_bits<const N: u32>(v: i64) -> u32
    requires { N ≤ 32 }
    ensures exact { result ≡ low_of N v }
    ensures bound { result < 2 ^ N }
{
    (v.cast_unsigned() & ((1 << N) - 1)) as u32
}

/// The upper part of a value, as `lui` and `auipc` take it: rounded, so that the signed low twelve
/// bits complete it.
pub fn upper_part(v: i64) -> u32
    ensures exact { result ≡ up_of v }
    ensures bound { result < 2 ^ 20 }
    ensures joined { low_of 32 (pos (result * 2 ^ 12) +ℤ low_part v) ≡ low_of 32 v }
{
    ((v.cast_unsigned().wrapping_add(0x800) >> 12) & 0xf_ffff) as u32
}
