ghost use Rattle.std.specs.Prelude.{◌≡◌, ℕ, ◌+◌, ◌*◌, ◌%◌, ◌^◌, ◌<◌, ◌≤◌, ◌⊎◌, length, slice_index};
ghost use Rattle.orc_words.specs.Numbers.{number_at, with_number};

use byteorder::{ByteOrder, LittleEndian};

/// The number in `width` bytes from place `at`.
pub fn get_le(bytes: &[u8], at: usize, width: usize) -> u64
    requires width { (width ≡ 1) ⊎ (width ≡ 2) ⊎ (width ≡ 4) ⊎ (width ≡ 8) }
    requires inside { at + width ≤ length bytes.now }
    ensures exact { result ≡ number_at width (slice_index bytes.now) at }
    ensures bound { result < 2 ^ (8 * width) }
{
    read(bytes, at, width)
}

fn read(bytes: &[u8], at: usize, width: usize) -> u64
    requires width { (width ≡ 1) ⊎ (width ≡ 2) ⊎ (width ≡ 4) ⊎ (width ≡ 8) }
    requires inside { at + width ≤ length bytes.now }
    ensures { result ≡ number_at width (slice_index bytes.now) at }
{
    let place = &bytes[at..at + width];
    match width {
        1 => place[0] as u64,
        2 => LittleEndian::read_u16(place) as u64,
        4 => LittleEndian::read_u32(place) as u64,
        _ => LittleEndian::read_u64(place),
    }
}

/// Writes the low `width` bytes of `v` from place `at`.
pub fn put_le(bytes: &mut [u8], at: usize, width: usize, v: u64)
    requires width { (width ≡ 1) ⊎ (width ≡ 2) ⊎ (width ≡ 4) ⊎ (width ≡ 8) }
    requires inside { at + width ≤ length bytes.old }
    ensures exact { slice_index bytes.new ≡ with_number width at v (slice_index bytes.old) }
    ensures reads_back { number_at width (slice_index bytes.new) at ≡ v % 2 ^ (8 * width) }
    ensures others { (place : ℕ) → (place < at) ⊎ (at + width ≤ place) → slice_index bytes.new place ≡ slice_index bytes.old place }
{
    write(bytes, at, width, v);
}

fn write(bytes: &mut [u8], at: usize, width: usize, v: u64)
    requires width { (width ≡ 1) ⊎ (width ≡ 2) ⊎ (width ≡ 4) ⊎ (width ≡ 8) }
    requires inside { at + width ≤ length bytes.old }
    ensures { slice_index bytes.new ≡ with_number width at v (slice_index bytes.old) }
{
    let place = &mut bytes[at..at + width];
    match width {
        1 => place[0] = (v & 0xff) as u8,
        2 => LittleEndian::write_u16(place, (v & 0xffff) as u16),
        4 => LittleEndian::write_u32(place, (v & 0xffff_ffff) as u32),
        _ => LittleEndian::write_u64(place, v),
    }
}
