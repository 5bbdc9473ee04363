ghost use Rattle.std.specs.Prelude.{◌≡◌, ℕ, Bool, List, [], ◌∷◌, ◌++◌};
ghost use Rattle.std.specs.Borrow.{ftrue};

use std::marker::Model;

/// The reads of a set of files, in order: the name of each, and whether it was a fault. It takes no
/// bytes and does nothing when the program runs; it is there so that a contract over any files can
/// speak of what was read.
#[derive(Drop)]
pub struct Reads {
    pub ghost list: { List (List ℕ × Bool) },
}

impl Model for Reads {
    ghost also_owns = { λ _. ftrue };
}

/// One read.
#[derive(Clone, Copy, Drop)]
struct Read<'a> {
    name: &'a str,
    failed: bool,
}

impl Reads {
    /// None yet.
    pub fn new() -> Reads
        ensures { result.list ≡ [] }
    {
        Reads {}
    }

    /// These, and one more.
    pub fn and(&self, name: &str, failed: bool) -> Reads
        ensures { result.list ≡ self.now.list ++ (name.now, failed) ∷ [] }
    {
        self.then(&Read { name, failed })
    }

    fn then(&self, _read: &Read<'_>) -> Reads
        ensures { result.list ≡ self.now.list ++ (_read.now.name.now, _read.now.failed) ∷ [] }
    {
        Reads {}
    }
}
