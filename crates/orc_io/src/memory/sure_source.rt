ghost use Rattle.std.specs.Prelude.{◌≡◌, ◌≤◌, Some, length, drop, take, min};

use crate::errors::Failed;
use crate::source::Source;
use orc_ids::Bytes;

/// A source in memory that never fails. It tells its bytes.
#[derive(Drop)]
pub struct SureSource {
    bytes: Bytes,
    taken: usize,
    ghost within: { taken ≤ length bytes },
}

impl SureSource {
    /// A source of these bytes.
    pub fn new(bytes: Bytes) -> SureSource
        ensures { ⟦<SureSource as Source>⟧.left result ≡ Some bytes }
    {
        SureSource { bytes, taken: 0 }
    }
}

impl Source for SureSource {
    ghost left = { λ s. Some (drop s.taken s.bytes) };

    ghost faults = { λ _. 0 };

    fn read(&mut self, buf: &mut [u8]) -> Result<usize, Failed> {
        let rest = &self.bytes.as_slice()[self.taken..];
        let count = copy_front(rest, buf);
        self.taken += count;
        Ok(count)
    }
}

/// Copies as many bytes as fit to the front of a buffer, and answers how many.
fn copy_front(rest: &[u8], buf: &mut [u8]) -> usize
    ensures count { result ≡ min (length rest.now) (length buf.old) }
    ensures front { take result buf.new ≡ take result rest.now }
{
    let count = rest.len().min(buf.len());
    buf[..count].copy_from_slice(&rest[..count]);
    count
}
