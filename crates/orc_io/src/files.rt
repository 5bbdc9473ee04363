ghost use Rattle.std.specs.Prelude.{◌≡◌, ℕ, ◌+◌, ◌≤◌, ◌++◌, ◌∷◌, [], Bool, List, Option, length, IfOk, IsErrOf};
ghost use Rattle.orc_io.specs.Causes.{Rose, is_fault};
ghost use Rattle.orc_io.specs.Contents.{HasContent, IsLongerThan};

use crate::errors::FileError;
use crate::limits::FILE_LIMIT;
use orc_ids::Bytes;
use std::alloc::Global;

/// Files that are read whole, by their names.
pub trait Files {
    /// The contents by the bytes of a name, where the files tell them; a name without a file has none.
    ghost holds: { Self → Option (List ℕ → Option (List ℕ)) };

    /// How often a file was missing, or reading one failed.
    ghost faults: { Self → ℕ };

    /// The reads so far, in order: each call of `read_file` adds its name, whatever it answers, and
    /// whether it was a fault.
    ghost reads: { Self → List (List ℕ × Bool) };

    /// The bytes of a file of at most `FILE_LIMIT` bytes. A longer file is never answered whole, and a
    /// missing one is neither whole nor too long, so it is a fault.
    fn read_file(&mut self, alloc: Global, name: &str) -> Result<Bytes, FileError>
        ensures content { IfOk result (λ bytes. HasContent (holds self.old) name.now bytes) }
        ensures within { IfOk result (λ bytes. length bytes ≤ FILE_LIMIT) }
        ensures too_long { IsErrOf result FileError.TooLong → IsLongerThan FILE_LIMIT (holds self.old) name.now }
        ensures failed { IsErrOf result FileError.Failed → Rose (faults self.old) (faults self.new) }
        ensures counted { faults self.old ≤ faults self.new }
        ensures once { faults self.new ≤ faults self.old + 1 }
        ensures passed { (IsErrOf result FileError.Failed → ⊥) → faults self.new ≡ faults self.old }
        ensures read { reads self.new ≡ reads self.old ++ (name.now, is_fault result) ∷ [] }
        ensures same { holds self.new ≡ holds self.old };
}
