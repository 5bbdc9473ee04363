ghost use Rattle.std.specs.Prelude.{◌≡◌, ◌<◌, ◌^◌, ◌∷◌, ◌++◌, [], length, true, false, slice_get, slice_index_or, slice_set, Some, OnOk, OnErr, IfOk, All};
ghost use Rattle.asm_state.specs.Names.{has, number_of};
ghost use Rattle.asm_state.specs.Symbols as want;

use crate::marks::{Definition, MENTIONED, Marks};
use crate::table::NameTable;
use std::alloc::{AllocError, Global};
use std::marker::Model;

/// The symbols of a text in order of first mention. Contracts see the record `Symbols`.
#[derive(Drop)]
pub struct SymbolBook<'a> {
    names: NameTable<'a>,
    marks: Vec<Marks>,
    labels: Vec<u32>,
}

impl<'a> Model for SymbolBook<'a> {
    ghost use Rattle.asm_state.specs.Symbols.{Symbols, IsBook};

    ghost Value = { Symbols };

    ghost view = { λ b. record { names = b.names; marks = b.marks.items; labels = b.labels.items } };

    ghost invariant = { λ b. IsBook (record { names = b.names; marks = b.marks.items; labels = b.labels.items }) };
}

impl<'a> SymbolBook<'a> {
    /// No symbols; takes no memory.
    pub fn new(alloc: Global) -> SymbolBook<'a>
        ensures { result ≡ want.no_symbols }
    {
        SymbolBook {
            names: NameTable::new(alloc),
            marks: Vec::new(alloc),
            labels: Vec::new(alloc),
        }
    }

    pub fn len(&self) -> usize
        ensures names { result ≡ length self.now.names }
        ensures marks { result ≡ length self.now.marks }
        ensures few { result < 2 ^ 32 }
    {
        self.names.len()
    }

    /// The name of the symbol of this number.
    pub fn name(&self, number: usize) -> &'a [u8]
        requires { number < length self.now.names }
        ensures { slice_get self.now.names number ≡ Some result.now }
    {
        self.names.name(number)
    }

    /// What is said of each symbol.
    pub fn marks(&self) -> &[Marks]
        ensures exact { result.now ≡ self.now.marks }
        ensures len { length result.now ≡ length self.now.names }
    {
        self.marks.as_slice()
    }

    /// The numbers of the labels, in order of definition.
    pub fn labels(&self) -> &[u32]
        ensures exact { result.now ≡ self.now.labels }
        ensures inside { All (λ n. n < length self.now.names) result.now }
    {
        self.labels.as_slice()
    }

    /// What is said of a name.
    #[tactic(auto, unfolding(crate::specs::Symbols::said_of))]
    pub fn said_of(&self, name: &[u8]) -> Marks
        ensures { result ≡ want.said_of name.now self.now }
    {
        if self.names.has(name) {
            self.marks[self.names.number_of(name) as usize]
        } else {
            MENTIONED
        }
    }

    /// The number of a name, which is put at the end where it is new.
    #[tactic(auto, unfolding(crate::specs::Symbols::mentioning))]
    pub fn mention(&mut self, name: &'a [u8]) -> Result<u32, AllocError>
        ensures known { OnOk result (self.new ≡ want.mentioning name.now self.old) }
        ensures number { IfOk result (λ number. number ≡ number_of name.now self.new.names) }
        ensures inside { IfOk result (λ number. number < length self.new.names) }
    {
        if !self.names.has(name) {
            self.add(name)?;
        }
        Ok(self.names.number_of(name))
    }

    /// The name is new, and put at the end.
    fn add(&mut self, name: &'a [u8]) -> Result<(), AllocError>
        requires { has name.now self.old.names ≡ false }
        ensures known { OnOk result (self.new ≡ want.added name.now self.old) }
        ensures there { OnOk result (has name.now self.new.names ≡ true) }
    {
        self.marks.push(MENTIONED)?;
        if self.names.add(name).is_err() {
            self.marks.pop();
            return Err(AllocError);
        }
        Ok(())
    }

    /// `.globl`
    #[tactic(auto, unfolding(crate::specs::Symbols::remarked))]
    pub fn make_global(&mut self, name: &'a [u8]) -> Result<(), AllocError>
        ensures { OnOk result (self.new ≡ want.remarked want.as_global name.now self.old) }
    {
        let number = self.mention(name)?;
        self.marks[number as usize].global = true;
        Ok(())
    }

    /// `.weak`
    #[tactic(auto, unfolding(crate::specs::Symbols::remarked))]
    pub fn make_weak(&mut self, name: &'a [u8]) -> Result<(), AllocError>
        ensures { OnOk result (self.new ≡ want.remarked want.as_weak name.now self.old) }
    {
        let number = self.mention(name)?;
        self.marks[number as usize].weak = true;
        Ok(())
    }

    /// `.hidden`
    #[tactic(auto, unfolding(crate::specs::Symbols::remarked))]
    pub fn make_hidden(&mut self, name: &'a [u8]) -> Result<(), AllocError>
        ensures { OnOk result (self.new ≡ want.remarked want.as_hidden name.now self.old) }
    {
        let number = self.mention(name)?;
        self.marks[number as usize].hidden = true;
        Ok(())
    }

    /// `.comm`
    #[tactic(auto, unfolding(crate::specs::Symbols::remarked))]
    pub fn define_common(&mut self, name: &'a [u8], size: u64, align: u64) -> Result<(), AllocError>
        ensures { OnOk result (self.new ≡ want.remarked (want.as_defined (Definition.Common size align)) name.now self.old) }
    {
        let number = self.mention(name)?;
        self.marks[number as usize].definition = Definition::Common { size, align };
        Ok(())
    }

    /// A label at a place.
    #[tactic(auto, unfolding(crate::specs::Symbols::labelled))]
    pub fn define_label(
        &mut self,
        name: &'a [u8],
        section: u32,
        offset: u64,
    ) -> Result<(), AllocError>
        ensures { OnOk result (self.new ≡ want.labelled name.now section offset self.old) }
    {
        let number = self.mention(name)?;
        self.labels.push(number)?;
        self.marks[number as usize].definition = Definition::Label { section, offset };
        Ok(())
    }
}
