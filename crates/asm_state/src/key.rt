ghost use Rattle.std.specs.Prelude.{◌≡◌, List, ℕ, [], ◌∷◌};
ghost use Rattle.std.specs.Str.{bytes_eq};
ghost use Rattle.std.specs.Cmp.Lexicographic.{nat_list_eq_equiv};
ghost use Rattle.std.specs.Cmp as Cmp;
ghost use Rattle.std.proofs.Common.{rules};

use std::hash::{Hash, Hasher};
use std::marker::Model;

/// A name of the text as a key. Contracts see its bytes. It is hashed in one write.
#[derive(Drop)]
pub(crate) struct Key<'a> {
    text: &'a [u8],
}

impl<'a> Model for Key<'a> {
    ghost Value = { List ℕ };

    ghost view = { λ k. k.text.now };
}

impl<'a> Key<'a> {
    pub fn new(text: &'a [u8]) -> Key<'a>
        ensures { result ≡ text.now }
    {
        Key { text }
    }

    pub fn as_slice(&self) -> &'a [u8]
        ensures { result.now ≡ self.now }
    {
        self.text
    }
}

impl<'a> PartialEq for Key<'a> {
    ghost eq = { bytes_eq };

    ghost laws = { Cmp.partial_equiv_from_equiv nat_list_eq_equiv };

    fn eq(&self, other: &Self) -> bool {
        self.text == other.text
    }
}

impl<'a> Eq for Key<'a> {
    ghost laws = { nat_list_eq_equiv };
}

impl<'a> Hash for Key<'a> {
    ghost hash_input = { λ t. t ∷ [] };

    ghost respects_eq = { Prim.search rules };

    fn hash<H: Hasher>(&self, state: &mut H) {
        state.write(self.text);
    }
}
