ghost use Rattle.std.specs.Prelude.{◌≡◌, ◌<◌, ◌≤◌, ◌^◌, ◌↔◌, ◌++◌, ◌∷◌, [], List, ℕ, length, Some, Contains, IfOk, IfSome, OnOk, OnErr, IsErrOf, IsSome, IsTrue, slice_get};
ghost use Rattle.orc_names.specs.Numbers.{IsNumberOf, KeepsNumbers};

use crate::error::NameError;
use crate::hasher::NameHasher;
use crate::text::Text;
use indexmap::IndexSet;
use orc_ids::NameId;
use std::alloc::Global;
use std::marker::Model;

/// The most bytes that a name may have.
pub const NAME_LIMIT: usize = 4_096;

/// The texts that have numbers, in the order of their numbers, which count from 0. There are at most
/// 2^32; where one more is wanted, the answer is that of memory.
#[derive(Drop)]
pub struct Names {
    texts: IndexSet<Text<'static>, NameHasher>,
    alloc: Global,
}

impl Model for Names {
    ghost use Rattle.std.specs.Prelude.{List, ℕ};
    ghost use Rattle.orc_names.specs.Numbers.{IsTable};

    ghost Value = { List (List ℕ) };

    ghost view = { λ n. n.texts.keys };

    ghost invariant = { λ n. IsTable n.texts.keys };
}

impl Names {
    /// No names, under a fixed hash; takes no memory.
    pub fn new(alloc: Global) -> Names
        ensures { result ≡ [] }
    {
        Names::with_hasher(alloc, NameHasher::Fixed)
    }

    /// No names, under this hash; takes no memory.
    pub fn with_hasher(alloc: Global, hasher: NameHasher) -> Names
        ensures { result ≡ [] }
    {
        Names {
            texts: IndexSet::with_hasher(alloc, hasher),
            alloc,
        }
    }

    /// How many texts have numbers.
    pub fn len(&self) -> usize
        ensures { result ≡ length self.now }
    {
        self.texts.len()
    }

    pub fn is_empty(&self) -> bool
        ensures { IsTrue result ↔ (self.now ≡ []) }
    {
        self.texts.is_empty()
    }

    /// The number of a text: its own, if it has one, and else the next.
    pub fn intern(&mut self, text: &[u8]) -> Result<NameId, NameError>
        ensures number { IfOk result (λ name. IsNumberOf self.new text.now name.0) }
        ensures older { KeepsNumbers self.old self.new }
        ensures known { Contains self.old text.now → self.new ≡ self.old }
        ensures added { OnOk result (¬ (Contains self.old text.now) → self.new ≡ self.old ++ text.now ∷ []) }
        ensures too_long { IsErrOf result NameError.TooLong ↔ (NAME_LIMIT < length text.now) }
        ensures err { OnErr result (self.new ≡ self.old) }
    {
        if text.len() > NAME_LIMIT {
            return Err(NameError::TooLong);
        }
        if let Some(name) = self.find(text) {
            return Ok(name);
        }
        self.add(text)
    }

    /// The next number, for a text that has none.
    fn add(&mut self, text: &[u8]) -> Result<NameId, NameError>
        requires { ¬ (Contains self.old text.now) }
        ensures added { OnOk result (self.new ≡ self.old ++ text.now ∷ []) }
        ensures older { KeepsNumbers self.old self.new }
        ensures number { IfOk result (λ name. IsNumberOf self.new text.now name.0) }
        ensures err { OnErr result (self.new ≡ self.old) }
        ensures not_long { IsErrOf result NameError.TooLong → ⊥ }
    {
        let Ok(next) = u32::try_from(self.texts.len()) else {
            return Err(NameError::NoMemory);
        };
        let key = Text::copy_of(self.alloc, text)?;
        self.texts.insert(key)?;
        Ok(NameId(next))
    }

    /// The text of a number.
    pub fn text(&self, name: NameId) -> &[u8]
        requires { name.0 < length self.now }
        ensures { IsNumberOf self.now result.now name.0 }
    {
        self.texts.as_slice()[name.0 as usize].as_slice()
    }

    /// The number of a text that has one.
    pub fn find(&self, text: &[u8]) -> Option<NameId>
        ensures known { IsSome result ↔ Contains self.now text.now }
        ensures number { IfSome result (λ name. IsNumberOf self.now text.now name.0) }
    {
        match self.texts.get_index_of(&Text::borrowed(text)) {
            Some(index) => Some(NameId(index as u32)),
            None => None,
        }
    }
}
