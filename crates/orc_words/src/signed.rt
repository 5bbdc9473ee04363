ghost use Rattle.std.specs.Prelude.{◌≡◌, ◌≤◌, ◌%◌, ◌^◌, true};
ghost use Rattle.orc_words.specs.Bits.{signed_of, low_of, fits_bits};

/// The low `N` bits of `part`, read as two's complement.
pub fn sign_extend<const N: u32>(part: u64) -> i64
    requires low { 1 ≤ N }
    requires high { N ≤ 64 }
    ensures exact { result ≡ signed_of N part }
    ensures same_bits { low_of N result ≡ part % 2 ^ N }
    ensures fits { fits_bits N result ≡ true }
{
    let modulus: u128 = 1 << N;
    let low = part as u128 % modulus;
    if low < modulus / 2 {
        low as i64
    } else {
        -1 - ((modulus - 1 - low) as i64)
    }
}

/// Whether `N` bits hold `v` as two's complement: from -2^(N-1) up to 2^(N-1) - 1.
pub fn fits_signed<const N: u32>(v: i128) -> bool
    requires low { 1 ≤ N }
    requires high { N ≤ 64 }
    ensures { result ≡ fits_bits N v }
{
    let half: i128 = 1 << (N - 1);
    -half <= v && v < half
}
