ghost use Rattle.std.specs.Prelude.{◌≡◌, [], None, Some, Ok, length};
ghost use Rattle.std.specs.Option.{option_map};

use crate::errors::Failed;
use crate::sink::Sink;
use std::alloc::Global;

/// A sink in memory that takes every piece whole and never fails. A sink that tells its bytes has to
/// keep all of them, and keeping more can want memory; so this one tells none through `Sink`, and
/// `bytes` has them as long as memory sufficed.
#[derive(Drop)]
pub struct SureSink {
    kept: Vec<u8>,
    whole: bool,
}

impl SureSink {
    ghost use Rattle.orc_io.specs.Kept.{kept_bytes};

    /// An empty sink.
    pub fn new(alloc: Global) -> SureSink
        ensures { kept_bytes result ≡ Some [] }
    {
        SureSink {
            kept: Vec::new(alloc),
            whole: true,
        }
    }

    /// All that was written, or none where memory didn't suffice to keep it.
    pub fn bytes(&self) -> Option<&[u8]>
        ensures { option_map (λ bytes. bytes.now) result ≡ kept_bytes self.now }
    {
        if self.whole {
            Some(self.kept.as_slice())
        } else {
            None
        }
    }
}

impl Sink for SureSink {
    ghost use Rattle.orc_io.specs.Kept.{kept_bytes, GrowsWhileKept};

    ghost held = { λ _. None };

    ghost faults = { λ _. 0 };

    /// Takes the whole piece.
    fn write(&mut self, bytes: &[u8]) -> Result<usize, Failed>
        ensures whole { result ≡ Ok (length bytes.now) }
        ensures kept { GrowsWhileKept (kept_bytes self.old) (kept_bytes self.new) bytes.now }
    {
        self.whole = self.whole && self.kept.extend_from_slice(bytes).is_ok();
        Ok(bytes.len())
    }
}
