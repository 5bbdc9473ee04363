ghost use Rattle.std.specs.Prelude.{◌≡◌, ◌+◌, ◌≤◌, ◌⊎◌, ◌↔◌, Some, None, IsTrue, IsSome, IfSome, IfNone};
ghost use Rattle.std.specs.Bool.{OnTrue, OnFalse};
ghost use Rattle.rv_hart.specs.Map.{byte_of, read, stored};
ghost use Rattle.code_memory.specs.Mapped.{byte_at};
ghost use Rattle.exec_run.specs.Bytes.{bytes_from};
ghost use Rattle.exec_run.specs.Regions.{IsGathered};

use crate::memory::RunMemory;
use crate::number::{number, word};

/// What `width` bytes from the address on make. None where one of them isn't mapped.
#[inline(always)]
pub(crate) fn load(memory: &RunMemory<'_>, at: u64, width: u8) -> Option<u64>
    requires { (width ≡ 1) ⊎ (width ≡ 2) ⊎ (width ≡ 4) ⊎ (width ≡ 8) }
    ensures { result ≡ read (byte_at memory.now) at width }
{
    let rest = memory.data_from(at)?;
    if usize::from(width) <= rest.len() {
        return Some(number(rest, width));
    }
    load_apart(memory, at, width)
}

/// A load that leaves the range that it begins in.
#[inline(never)]
fn load_apart(memory: &RunMemory<'_>, at: u64, width: u8) -> Option<u64>
    requires { width ≤ 8 }
    ensures { result ≡ read (byte_at memory.now) at width }
{
    let bytes = gather(memory, at, width)?;
    Some(number(bytes.as_slice(), 8))
}

/// The word of the four bytes from the address on.
#[inline(always)]
pub(crate) fn fetch(memory: &RunMemory<'_>, at: u64) -> Option<u32>
    ensures { result ≡ read (byte_at memory.now) at 4 }
{
    let rest = memory.code_from(at)?;
    if rest.len() >= 4 {
        return Some(word(rest));
    }
    fetch_apart(memory, at)
}

/// A fetch that leaves the range that it begins in.
#[inline(never)]
fn fetch_apart(memory: &RunMemory<'_>, at: u64) -> Option<u32>
    ensures { result ≡ read (byte_at memory.now) at 4 }
{
    let bytes = gather(memory, at, 4)?;
    Some(word(bytes.as_slice()))
}

/// The bytes of an access that leaves the range that it begins in, with zero bytes after them.
fn gather(memory: &RunMemory<'_>, at: u64, width: u8) -> Option<[u8; 8]>
    requires { width ≤ 8 }
    ensures found { IfSome result (λ bytes. IsGathered memory.now at width bytes) }
    ensures missing { IfNone result (bytes_from (byte_at memory.now) at width ≡ None) }
{
    let mut bytes = [0; 8];
    for k in 0..width {
        bytes[usize::from(k)] = byte(memory, at, k)?;
    }
    Some(bytes)
}

/// The byte that is k after an address.
fn byte(memory: &RunMemory<'_>, at: u64, k: u8) -> Option<u8>
    ensures { result ≡ byte_of (byte_at memory.now) (at + k) }
{
    let rest = memory.data_from(at.checked_add(u64::from(k))?)?;
    Some(rest[0])
}

/// Stores the `width` low bytes of a value. False where a byte there isn't mapped.
#[inline(always)]
pub(crate) fn store(memory: &mut RunMemory<'_>, at: u64, width: u8, value: u64) -> bool
    requires { width ≤ 8 }
    ensures mapped { IsTrue result ↔ IsSome (read (byte_at memory.old) at width) }
    ensures done { OnTrue result (byte_at memory.new ≡ stored (byte_at memory.old) at width value) }
    ensures refused { OnFalse result (byte_at memory.new ≡ byte_at memory.old) }
{
    if memory.put(at, width, value) {
        return true;
    }
    store_apart(memory, at, width, value)
}

/// A store that leaves the range that it begins in or is the first there, byte by byte.
#[inline(never)]
fn store_apart(memory: &mut RunMemory<'_>, at: u64, width: u8, value: u64) -> bool
    requires { width ≤ 8 }
    ensures mapped { IsTrue result ↔ IsSome (read (byte_at memory.old) at width) }
    ensures done { OnTrue result (byte_at memory.new ≡ stored (byte_at memory.old) at width value) }
    ensures refused { OnFalse result (byte_at memory.new ≡ byte_at memory.old) }
{
    if gather(memory, at, width).is_none() {
        return false;
    }
    store_bytes(memory, at, width, value);
    true
}

/// Stores bytes at mapped addresses one by one.
fn store_bytes(memory: &mut RunMemory<'_>, at: u64, width: u8, value: u64)
    requires { IsSome (bytes_from (byte_at memory.old) at width) }
    ensures { byte_at memory.new ≡ stored (byte_at memory.old) at width value }
{
    let mut rest = value;
    for k in 0..width {
        memory.set(at + u64::from(k), (rest % 256) as u8);
        rest /= 256;
    }
}
