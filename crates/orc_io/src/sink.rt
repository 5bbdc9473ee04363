ghost use Rattle.std.specs.Prelude.{◌≡◌, ℕ, ◌+◌, ◌<◌, ◌≤◌, List, Option, length, IfOk, OnOk, OnErr};
ghost use Rattle.std.specs.Io.{WritesAtMost};
ghost use Rattle.std.specs.Io.KnownBytes.{WriteAppends};
ghost use Rattle.orc_io.specs.Causes.{Rose};

use crate::errors::Failed;

/// What a text is written to, piece by piece.
pub trait Sink {
    /// The bytes that it holds, where the sink tells them.
    ghost held: { Self → Option (List ℕ) };

    /// How often writing has failed.
    ghost faults: { Self → ℕ };

    /// Appends bytes from the front of the piece, and answers how many. A write that takes nothing of
    /// a nonempty piece is a fault. A write that fails appends nothing.
    fn write(&mut self, bytes: &[u8]) -> Result<usize, Failed>
        ensures bound { WritesAtMost result bytes.now }
        ensures bytes { WriteAppends (held self.old) (held self.new) result bytes.now }
        ensures progress { IfOk result (λ taken. 0 < length bytes.now → 0 < taken) }
        ensures counted { faults self.old ≤ faults self.new }
        ensures once { faults self.new ≤ faults self.old + 1 }
        ensures passed { OnOk result (faults self.new ≡ faults self.old) }
        ensures failed { OnErr result (Rose (faults self.old) (faults self.new)) };
}
