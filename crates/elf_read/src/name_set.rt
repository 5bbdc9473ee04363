ghost use Rattle.std.specs.Prelude.{◌≡◌, ℕ, List, [], ◌||◌, not, IfOk};
ghost use Rattle.std.specs.Bool.{OnTrue};
ghost use Rattle.std.specs.List.{list_any};
ghost use Rattle.std.specs.Str.{bytes_eq};

use std::alloc::{AllocError, Global};
use std::collections::HashSet;
use std::hash::{Hash, Hasher};
use std::marker::Model;

/// A name as a key: its hash is one write of its bytes.
#[derive(Clone, Copy, PartialEq, Eq)]
struct NameKey<'a> {
    text: &'a [u8],
}

impl<'a> Hash for NameKey<'a> {
    ghost use Rattle.std.specs.Prelude.{[], ◌∷◌};
    ghost use Rattle.elf_read.specs.Names.{feeds_alike};

    ghost hash_input = { λ k. k.text.now ∷ [] };

    ghost respects_eq = { λ x y h. feeds_alike x.text.now y.text.now h };

    fn hash<H: Hasher>(&self, state: &mut H) {
        state.write(self.text);
    }
}

/// A set of names. Contracts see a list of them, in no order that they know.
#[derive(Drop)]
pub(crate) struct NameSet<'a> {
    keys: HashSet<NameKey<'a>>,
}

impl<'a> Model for NameSet<'a> {
    ghost use Rattle.std.specs.Prelude.{ℕ, List, map};

    ghost Value = { List (List ℕ) };

    ghost view = { λ s. map (λ k. k.text.now) s.keys.keys };
}

impl<'a> NameSet<'a> {
    /// No names; takes no memory.
    pub fn new(alloc: Global) -> NameSet<'a>
        ensures { result ≡ [] }
    {
        NameSet {
            keys: HashSet::new(alloc),
        }
    }

    /// Adds a name, and tells whether it is new.
    pub fn insert(&mut self, text: &'a [u8]) -> Result<bool, AllocError>
        ensures is_new { IfOk result (λ added. added ≡ not (list_any (bytes_eq text.now) self.old)) }
        ensures grows { IfOk result (λ added. OnTrue added ((q : List ℕ) → list_any (bytes_eq q) self.new ≡ (bytes_eq q text.now || list_any (bytes_eq q) self.old))) }
    {
        Ok(self.keys.insert(NameKey { text })?)
    }
}
