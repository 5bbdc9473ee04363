ghost use Rattle.std.specs.Prelude.{◌≡◌, ◌+◌, ◌^◌, ◌<◌, ◌≤◌, Some, false, true, length, slice_get, slice_index_or, OnOk, IfOk};
ghost use Rattle.rv_insn.specs.Range.{InRange};
ghost use Rattle.asm_state.specs.Names.{has};
ghost use Rattle.asm_state.specs.Sections as want;

use crate::section::{Making, Target, is_bss};
use crate::table::NameTable;
use asm_lines::SectionKind;
use rv_insn::Insn;
use std::alloc::{AllocError, Global};
use std::marker::Model;

/// The sections of a text in order of first mention. Contracts see the record `Sections`.
#[derive(Drop)]
pub struct SectionBook<'a> {
    names: NameTable<'a>,
    made: Vec<Making>,
    current: Option<u32>,
    text_align: u64,
    alloc: Global,
}

impl<'a> Model for SectionBook<'a> {
    ghost use Rattle.asm_state.specs.Sections.{Sections, IsBook};

    ghost Value = { Sections };

    ghost view = { λ b. record { names = b.names; made = b.made.items; current = b.current; text_align = b.text_align } };

    ghost invariant = { λ b. IsBook (record { names = b.names; made = b.made.items; current = b.current; text_align = b.text_align }) };
}

impl<'a> SectionBook<'a> {
    /// No sections; takes no memory.
    pub fn new(alloc: Global) -> SectionBook<'a>
        ensures { result ≡ want.no_sections }
    {
        SectionBook {
            names: NameTable::new(alloc),
            made: Vec::new(alloc),
            current: None,
            text_align: 4,
            alloc,
        }
    }

    pub fn len(&self) -> usize
        ensures names { result ≡ length self.now.names }
        ensures made { result ≡ length self.now.made }
    {
        self.made.len()
    }

    /// Whether the section is mentioned.
    pub fn has(&self, name: &[u8]) -> bool
        ensures { result ≡ has name.now self.now.names }
    {
        self.names.has(name)
    }

    /// The name of the section of this number.
    pub fn name(&self, number: usize) -> &'a [u8]
        requires { number < length self.now.names }
        ensures { slice_get self.now.names number ≡ Some result.now }
    {
        self.names.name(number)
    }

    pub fn made(&self) -> &[Making]
        ensures exact { result.now ≡ self.now.made }
        ensures len { length result.now ≡ length self.now.names }
        ensures few { length result.now < 2 ^ 32 }
    {
        // called for its clause, that there are few
        let _few = self.names.len();
        self.made.as_slice()
    }

    /// What the current section is for.
    pub fn current_kind(&self) -> SectionKind
        ensures { result ≡ (want.current self.now).kind }
    {
        match self.current {
            None => SectionKind::Text,
            Some(number) => self.made[number as usize].kind(),
        }
    }

    /// How many bytes the current section has.
    pub fn current_size(&self) -> u64
        ensures exact { result ≡ (want.current self.now).size }
        ensures small { result ≤ want.largest }
    {
        match self.current {
            None => 0,
            Some(number) => self.made[number as usize].size(),
        }
    }

    /// The current section's number, or 0 where there is none.
    pub fn current_number(&self) -> u32
        ensures { result ≡ want.current_number self.now }
    {
        self.current.unwrap_or(0)
    }

    /// The section of a name becomes the current one.
    #[tactic(auto, unfolding(crate::specs::Sections::entered))]
    pub fn enter(&mut self, name: &'a [u8], kind: SectionKind) -> Result<(), AllocError>
        ensures { OnOk result (self.new ≡ want.entered name.now kind self.old) }
    {
        if self.names.has(name) {
            self.current = Some(self.names.number_of(name));
            return Ok(());
        }
        self.begin(name, kind)
    }

    /// The name is new, and its section becomes the current one.
    fn begin(&mut self, name: &'a [u8], kind: SectionKind) -> Result<(), AllocError>
        requires { has name.now self.old.names ≡ false }
        ensures { OnOk result (self.new ≡ want.begun name.now kind self.old) }
    {
        let align = if name == b".text".as_slice() {
            self.text_align
        } else {
            first_align(kind)
        };
        let number = self.names.len() as u32;
        if self
            .made
            .push(Making::new(self.alloc, kind, align))
            .is_err()
        {
            return Err(AllocError);
        }
        if self.names.add(name).is_err() {
            self.made.pop();
            return Err(AllocError);
        }
        self.current = Some(number);
        Ok(())
    }

    /// Mentions the current section, and tells its number.
    #[tactic(auto, unfolding(crate::specs::Sections::opened))]
    pub fn open(&mut self) -> Result<u32, AllocError>
        ensures opened { OnOk result (self.new ≡ want.opened self.old) }
        ensures number { IfOk result (λ number. (number < length self.new.made) × (self.new.current ≡ Some number)) }
        ensures same { OnOk result (want.current self.new ≡ want.current self.old) }
    {
        if let Some(number) = self.current {
            return Ok(number);
        }
        self.begin(b".text", SectionKind::Text)?;
        Ok(self.made.len() as u32 - 1)
    }

    /// The current section's alignment becomes at least this.
    #[tactic(auto, unfolding(crate::specs::Sections::aligned))]
    pub fn raise(&mut self, align: u64)
        requires { align ≤ 4096 }
        ensures { self.new ≡ want.aligned align self.old }
    {
        match self.current {
            None => self.text_align = align.max(self.text_align),
            Some(number) => self.made[number as usize].raise(align),
        }
    }

    /// The bytes stand next in the current section.
    #[tactic(auto, unfolding(crate::specs::Sections::in_current))]
    pub fn put_bytes(&mut self, bytes: &[u8]) -> Result<(), AllocError>
        requires kind { want.is_bss (want.current self.old).kind ≡ false }
        requires room { (want.current self.old).size + length bytes.now ≤ want.largest }
        ensures known { OnOk result (self.new ≡ want.in_current (want.with_bytes bytes.now) self.old) }
        ensures here { OnOk result (want.current self.new ≡ want.with_bytes bytes.now (want.current self.old)) }
    {
        let number = self.open()?;
        self.made[number as usize].put_bytes(bytes)
    }

    /// So many zeros stand next in the current section.
    #[tactic(auto, unfolding(crate::specs::Sections::in_current))]
    pub fn put_zeros(&mut self, n: u64) -> Result<(), AllocError>
        requires room { (want.current self.old).size + n ≤ want.largest }
        ensures known { OnOk result (self.new ≡ want.in_current (want.with_zeros n) self.old) }
        ensures here { OnOk result (want.current self.new ≡ want.with_zeros n (want.current self.old)) }
    {
        let number = self.open()?;
        self.made[number as usize].put_zeros(n)
    }

    /// An instruction stands next in the current section.
    #[tactic(auto, unfolding(crate::specs::Sections::in_current))]
    pub fn put_code(&mut self, insn: Insn, target: Option<Target>) -> Result<(), AllocError>
        requires kind { want.is_bss (want.current self.old).kind ≡ false }
        requires room { (want.current self.old).size + 4 ≤ want.largest }
        requires range { InRange insn }
        ensures known { OnOk result (self.new ≡ want.in_current (want.with_code insn target) self.old) }
        ensures here { OnOk result (want.current self.new ≡ want.with_code insn target (want.current self.old)) }
    {
        let number = self.open()?;
        self.made[number as usize].put_code(insn, target)
    }

    /// A relocation of what stands next in the current section.
    #[tactic(auto, unfolding(crate::specs::Sections::in_current))]
    pub fn put_patch(
        &mut self,
        kind: u32,
        symbol: Option<u32>,
        addend: i64,
        fills: bool,
    ) -> Result<(), AllocError>
        ensures known { OnOk result (self.new ≡ want.in_current (want.with_patch kind symbol addend fills) self.old) }
        ensures here { OnOk result (want.current self.new ≡ want.with_patch kind symbol addend fills (want.current self.old)) }
    {
        let number = self.open()?;
        self.made[number as usize].put_patch(kind, symbol, addend, fills)
    }
}

/// The alignment that a section starts with.
fn first_align(kind: SectionKind) -> u64
    ensures { result ≡ want.first_align kind }
{
    match kind {
        SectionKind::Text => 4,
        SectionKind::Data | SectionKind::Bss | SectionKind::ReadOnly => 1,
    }
}
