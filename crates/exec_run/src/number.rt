ghost use Rattle.std.specs.Prelude.{◌≡◌, ◌+◌, ◌≤◌, ◌<◌, ◌⊎◌, ◌^◌, length, vec_len, vec_capacity};
ghost use Rattle.std.specs.Prelude.{take};
ghost use Rattle.exec_run.specs.Regions.{number_of, with_number};

/// The number that the first `width` bytes make, the lowest first.
#[inline(always)]
pub(crate) fn number(bytes: &[u8], width: u8) -> u64
    requires wide { (width ≡ 1) ⊎ (width ≡ 2) ⊎ (width ≡ 4) ⊎ (width ≡ 8) }
    requires long { width ≤ length bytes.now }
    ensures { result ≡ number_of (take width bytes.now) }
{
    match width {
        1 => u64::from(bytes[0]),
        2 => u64::from(u16::from_le_bytes([bytes[0], bytes[1]])),
        4 => u64::from(word(bytes)),
        _ => u64::from_le_bytes([
            bytes[0], bytes[1], bytes[2], bytes[3], bytes[4], bytes[5], bytes[6], bytes[7],
        ]),
    }
}

/// The number that the first four bytes make, the lowest first.
#[inline(always)]
pub(crate) fn word(bytes: &[u8]) -> u32
    requires { 4 ≤ length bytes.now }
    ensures { result ≡ number_of (take 4 bytes.now) }
{
    u32::from_le_bytes([bytes[0], bytes[1], bytes[2], bytes[3]])
}

/// Writes the `width` low bytes of a value from a place on, the lowest first.
#[inline(always)]
pub(crate) fn put(bytes: &mut Vec<u8>, place: usize, width: u8, value: u64)
    requires { place + width ≤ vec_len bytes.old }
    ensures items { bytes.new.items ≡ with_number bytes.old.items place width value }
    ensures capacity { vec_capacity bytes.new ≡ vec_capacity bytes.old }
{
    put_in(bytes.as_mut_slice(), place, width, value);
}

/// The same in a slice, whose stores are one.
#[inline(always)]
fn put_in(bytes: &mut [u8], place: usize, width: u8, value: u64)
    requires { place + width ≤ length bytes.old }
    ensures { bytes.new ≡ with_number bytes.old place width value }
{
    let mut rest = value;
    for k in 0..width {
        bytes[place + usize::from(k)] = (rest % 256) as u8;
        rest /= 256;
    }
}
