ghost use Rattle.std.specs.Prelude.{◌≡◌, ◌<◌, ◌^◌, ◌++◌, ◌∷◌, [], length, true, false, slice_get, Some, OnOk, OnErr};
ghost use Rattle.asm_state.specs.Names.{has, number_of};

use crate::key::Key;
use indexmap::IndexSet;
use std::alloc::{AllocError, Global};
use std::marker::Model;

/// Names, each once, in the order in which they came; found by a hash.
#[derive(Drop)]
pub(crate) struct NameTable<'a> {
    keys: IndexSet<Key<'a>>,
}

impl<'a> Model for NameTable<'a> {
    ghost use Rattle.std.specs.Prelude.{List, ℕ};
    ghost use Rattle.asm_state.specs.Names.{IsTable};

    ghost Value = { List (List ℕ) };

    ghost view = { λ t. t.keys.keys };

    ghost invariant = { λ t. IsTable t.keys.keys };
}

impl<'a> NameTable<'a> {
    /// No names; takes no memory.
    pub fn new(alloc: Global) -> NameTable<'a>
        ensures { result ≡ [] }
    {
        NameTable {
            keys: IndexSet::new(alloc),
        }
    }

    pub fn len(&self) -> usize
        ensures exact { result ≡ length self.now }
        ensures few { result < 2 ^ 32 }
    {
        self.keys.len()
    }

    /// Whether the name is there.
    pub fn has(&self, name: &[u8]) -> bool
        ensures { result ≡ has name.now self.now }
    {
        self.keys.get_index_of(&Key::new(name)).is_some()
    }

    /// The number of a name that is there.
    pub fn number_of(&self, name: &[u8]) -> u32
        requires { has name.now self.now ≡ true }
        ensures number { result ≡ number_of name.now self.now }
        ensures inside { result < length self.now }
    {
        match self.keys.get_index_of(&Key::new(name)) {
            Some(index) => index as u32,
            None => unreachable!(),
        }
    }

    /// The name of this number.
    pub fn name(&self, number: usize) -> &'a [u8]
        requires { number < length self.now }
        ensures { slice_get self.now number ≡ Some result.now }
    {
        self.keys.as_slice()[number].as_slice()
    }

    /// Puts a new name at the end. There are fewer than 2^32 - 1; where one more is wanted, the answer is
    /// that of memory.
    pub fn add(&mut self, name: &'a [u8]) -> Result<(), AllocError>
        requires { has name.now self.old ≡ false }
        ensures added { OnOk result (self.new ≡ self.old ++ name.now ∷ []) }
        ensures there { OnOk result (has name.now self.new ≡ true) }
        ensures err { OnErr result (self.new ≡ self.old) }
    {
        self.push(name)?;
        Ok(())
    }

    fn push(&mut self, name: &'a [u8]) -> Result<(), AllocError>
        requires { has name.now self.old ≡ false }
        ensures added { OnOk result (self.new ≡ self.old ++ name.now ∷ []) }
        ensures err { OnErr result (self.new ≡ self.old) }
    {
        if self.keys.len() >= 0xffff_fffe {
            return Err(AllocError);
        }
        self.keys.insert(Key::new(name))?;
        Ok(())
    }
}
