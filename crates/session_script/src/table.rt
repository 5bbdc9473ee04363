ghost use Rattle.std.specs.Prelude.{◌≡◌, ◌<◌, ◌++◌, ◌∷◌, [], length, false, Some, OnOk, OnErr, IfOk, slice_get};
ghost use Rattle.session_script.specs.Texts.{has, number_of, mentioned};

use crate::key::Key;
use indexmap::IndexSet;
use orc_names::NameHasher;
use std::alloc::{AllocError, Global};
use std::marker::Model;

/// Texts, each once, in the order in which they were first mentioned; found by a hash.
pub struct TextTable {
    texts: IndexSet<Key<'static>, NameHasher>,
    alloc: Global,
}

impl Model for TextTable {
    ghost use Rattle.std.specs.Prelude.{List, ℕ};
    ghost use Rattle.session_script.specs.Texts.{IsTable};

    ghost Value = { List (List ℕ) };

    ghost view = { λ t. t.texts.keys };

    ghost invariant = { λ t. IsTable t.texts.keys };
}

/// Written by hand, so that who lets go of several tables calls it for each: a derived one would
/// stand there whole, each time.
impl Drop for TextTable {
    fn drop(self) {
        let TextTable { texts: _, alloc: _ } = self;
    }
}

impl TextTable {
    /// No texts; takes no memory.
    pub fn with_hasher(alloc: Global, hasher: NameHasher) -> TextTable
        ensures { result ≡ [] }
    {
        TextTable {
            texts: IndexSet::with_hasher(alloc, hasher),
            alloc,
        }
    }

    pub fn len(&self) -> usize
        ensures { result ≡ length self.now }
    {
        self.texts.len()
    }

    /// The text of this number.
    pub fn text(&self, number: u32) -> &[u8]
        requires { number < length self.now }
        ensures { slice_get self.now number ≡ Some result.now }
    {
        self.texts.as_slice()[number as usize].as_slice()
    }

    /// Whether the text is there.
    pub fn has(&self, text: &[u8]) -> bool
        ensures { result ≡ has text.now self.now }
    {
        self.texts.get_index_of(&Key::borrowed(text)).is_some()
    }

    /// The number of a text, or 0 where it isn't there.
    pub fn number_of(&self, text: &[u8]) -> u32
        ensures { result ≡ number_of text.now self.now }
    {
        match self.texts.get_index_of(&Key::borrowed(text)) {
            Some(index) => index as u32,
            None => 0,
        }
    }

    /// The number of a text, which is put at the end where it is new. There are at most 2^32; where one
    /// more is wanted, the answer is that of memory.
    pub fn mention(&mut self, text: &[u8]) -> Result<u32, AllocError>
        ensures texts { OnOk result (self.new ≡ mentioned text.now self.old) }
        ensures number { IfOk result (λ number. number ≡ number_of text.now self.new) }
        ensures err { OnErr result (self.new ≡ self.old) }
    {
        if !self.has(text) {
            self.add(text)?;
        }
        Ok(self.number_of(text))
    }

    /// The text is new, and put at the end.
    fn add(&mut self, text: &[u8]) -> Result<(), AllocError>
        requires { has text.now self.old ≡ false }
        ensures added { OnOk result (self.new ≡ self.old ++ text.now ∷ []) }
        ensures err { OnErr result (self.new ≡ self.old) }
    {
        let Ok(_) = u32::try_from(self.texts.len()) else {
            return Err(AllocError);
        };
        let key = Key::copy_of(self.alloc, text)?;
        self.texts.insert(key)?;
        Ok(())
    }
}
