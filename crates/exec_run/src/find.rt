ghost use Rattle.std.specs.Prelude.{◌≡◌, ◌<◌, ◌↔◌, Some, None, IsTrue, IfSome, IfNone, length};
ghost use Rattle.code_memory.specs.Mapped.{byte_at};
ghost use Rattle.exec_run.specs.Regions.{IsIn, IsPart};

use crate::ranges::Ranges;
use std::cell::Cell;

/// Whether range k has the address.
#[inline(always)]
fn has(ranges: &Ranges<'_>, k: usize, at: u64) -> bool
    requires { k < length ranges.now }
    ensures { IsTrue result ↔ IsIn ranges.now k at }
{
    let start = ranges.base(k);
    if at < start {
        return false;
    }
    at - start < ranges.size(k) as u64
}

/// The number of the range that has the address, which is looked for at the hint first.
#[inline(always)]
pub(crate) fn find(ranges: &Ranges<'_>, hint: &Cell<usize>, at: u64) -> Option<usize>
    ensures found { IfSome result (λ k. IsIn ranges.now k at) }
    ensures missing { IfNone result (byte_at ranges.now at ≡ None) }
{
    let last = hint.get();
    if last < ranges.count() && has(ranges, last, at) {
        return Some(last);
    }
    let found = search(ranges, at)?;
    hint.set(found);
    Some(found)
}

/// The number of the range that has the address, by halves.
fn search(ranges: &Ranges<'_>, at: u64) -> Option<usize>
    ensures found { IfSome result (λ k. IsIn ranges.now k at) }
    ensures missing { IfNone result (byte_at ranges.now at ≡ None) }
{
    let mut low = 0;
    let mut high = ranges.count();
    while low < high {
        let middle = low + (high - low) / 2;
        if has(ranges, middle, at) {
            return Some(middle);
        }
        if ranges.base(middle) <= at {
            low = middle + 1;
        } else {
            high = middle;
        }
    }
    None
}

/// The bytes from the address on, up to the end of its range.
#[inline(always)]
pub(crate) fn rest_from<'r>(ranges: &'r Ranges<'_>, hint: &Cell<usize>, at: u64) -> Option<&'r [u8]>
    ensures found { IfSome result (λ rest. IsPart ranges.now at rest.now) }
    ensures missing { IfNone result (byte_at ranges.now at ≡ None) }
{
    let k = find(ranges, hint, at)?;
    let from = (at - ranges.base(k)) as usize;
    Some(&ranges.bytes(k)[from..])
}
