ghost use Rattle.std.specs.Prelude.{◌≡◌, List, ℕ, [], ◌∷◌, IfOk};
ghost use Rattle.std.specs.Str.{bytes_eq};
ghost use Rattle.std.specs.Cmp.Lexicographic.{nat_list_eq_equiv};
ghost use Rattle.std.specs.Cmp as Cmp;
ghost use Rattle.std.proofs.Common.{rules};
ghost use Rattle.std.specs.Cow.{cow_slice_items};

use orc_ids::Bytes;
use std::alloc::{AllocError, Global};
use std::borrow::CowSlice;
use std::hash::{Hash, Hasher};
use std::marker::Model;

/// A text as a key of a table, which owns it, or of a look-up, which borrows it. Contracts see its
/// bytes. It is hashed in one write.
#[derive(Drop)]
pub struct Key<'a> {
    bytes: CowSlice<'a, u8, Global>,
}

impl<'a> Model for Key<'a> {
    ghost Value = { List ℕ };

    ghost view = { λ t. cow_slice_items t.bytes };
}

impl<'a> Key<'a> {
    /// A text that is looked up.
    pub fn borrowed(bytes: &'a [u8]) -> Key<'a>
        ensures { result ≡ bytes.now }
    {
        Key {
            bytes: CowSlice::Borrowed(bytes),
        }
    }

    /// A text of the table's own.
    pub fn copy_of(alloc: Global, bytes: &[u8]) -> Result<Key<'a>, AllocError>
        ensures { IfOk result (λ text. text ≡ bytes.now) }
    {
        let owned = Bytes::copy_of(alloc, bytes)?;
        Ok(Key {
            bytes: CowSlice::Owned(owned.into_vec()),
        })
    }

    pub fn as_slice(&self) -> &[u8]
        ensures { result.now ≡ self.now }
    {
        self.bytes.as_slice()
    }
}

impl<'a> PartialEq for Key<'a> {
    ghost eq = { bytes_eq };

    ghost laws = { Cmp.partial_equiv_from_equiv nat_list_eq_equiv };

    fn eq(&self, other: &Self) -> bool {
        self.as_slice() == other.as_slice()
    }
}

impl<'a> Eq for Key<'a> {
    ghost laws = { nat_list_eq_equiv };
}

impl<'a> Hash for Key<'a> {
    ghost hash_input = { λ t. t ∷ [] };

    ghost respects_eq = { Prim.search rules };

    fn hash<H: Hasher>(&self, state: &mut H) {
        state.write(self.as_slice());
    }
}
