ghost use Rattle.std.specs.Prelude.{◌≡◌, ◌≤◌, ◌<◌};
ghost use Rattle.asm_text.specs.Bounds.{Bounded};
ghost use Rattle.asm_text.specs.Known as known;
ghost use Rattle.asm_text.specs.Refusals as want;

use crate::assembler::Assembler;
use asm_lines::{AsmWhy, Fixup, Name, SectionKind, Statement};
use asm_state::{Definition, distance_to, is_bss, is_far};
use rv_insn::Insn;

/// The most bytes of a section.
const LARGEST: u128 = 0x100_0000;

/// The most sections.
const SECTION_LIMIT: usize = 16_384;

/// A relocation of a branch or a jump.
fn is_branch(kind: u32) -> bool
    ensures { result ≡ want.is_branch kind }
{
    kind == 16 || kind == 17
}

fn is_nowhere(definition: Definition) -> bool
    ensures { result ≡ known.is_nowhere definition }
{
    match definition {
        Definition::Nowhere => true,
        Definition::Label { .. } | Definition::Common { .. } => false,
    }
}

pub(crate) fn is_text(kind: SectionKind) -> bool
    ensures { result ≡ known.is_text kind }
{
    match kind {
        SectionKind::Text => true,
        SectionKind::Data | SectionKind::Bss | SectionKind::ReadOnly => false,
    }
}

fn is_label(label: &Option<Name>, name: &[u8]) -> bool
    ensures { result ≡ want.is_label label.now name.now }
{
    match label {
        None => false,
        Some(label) => label.as_slice() == name,
    }
}

/// The bytes up to the next multiple.
fn gap(align: u64, size: u64) -> u64
    requires { 0 < align }
    ensures { result ≡ want.gap align size }
{
    (align - size % align) % align
}

fn padding_of(relaxed: bool, align: u64, size: u64) -> u64
    requires { 0 < align }
    ensures { result ≡ want.padding_of relaxed align size }
{
    if relaxed && align >= 4 {
        align - 4
    } else {
        gap(align, size)
    }
}

impl<'a> Assembler<'a> {
    fn is_defined(&self, name: &[u8]) -> bool
        ensures { result ≡ known.is_defined name.now self.now.symbols }
    {
        !is_nowhere(self.symbols.said_of(name).definition)
    }

    /// Why a line can't have its label, if it can't.
    pub fn label_refusal(&self, label: &Option<Name>) -> Option<AsmWhy>
        ensures { result ≡ want.label_refusal label.now self.now }
    {
        match label {
            None => None,
            Some(name) => self.is_defined(name.as_slice()).then_some(AsmWhy::Label),
        }
    }

    /// Whether a branch is filled in where its label is a local one of the section.
    pub fn fills(&self, fixup: &Fixup) -> bool
        ensures { result ≡ want.fills fixup.now self.now }
    {
        is_branch(fixup.kind) && !self.relax
    }

    /// Whether a branch would be filled in, and its label is out of reach.
    #[tactic(auto, unfolding(crate::specs::Refusals::is_too_far))]
    fn is_too_far(&self, insn: Insn, fixup: &Fixup) -> bool
        ensures { result ≡ want.is_too_far insn fixup.now self.now }
    {
        let marks = self.symbols.said_of(fixup.symbol.as_slice());
        let distance = distance_to(
            self.sections.current_number(),
            self.sections.current_size(),
            marks,
        );
        self.fills(fixup) && is_far(insn, distance)
    }

    fn takes_name(&self, label: &Option<Name>, statement: &Statement) -> bool
        ensures { result ≡ want.takes_name label.now statement.now self.now }
    {
        match statement {
            Statement::Common { symbol, .. } => {
                self.is_defined(symbol.as_slice()) || is_label(label, symbol.as_slice())
            }
            _ => false,
        }
    }

    fn has_room(&self, n: u128) -> bool
        ensures { result ≡ want.has_room n self.now }
    {
        n <= LARGEST && self.sections.current_size() as u128 + n <= LARGEST
    }

    fn takes_bytes(&self, n: u128) -> bool
        ensures { result ≡ want.takes_bytes n self.now }
    {
        !is_bss(self.sections.current_kind()) && self.has_room(n)
    }

    /// How many bytes `.balign` writes.
    #[tactic(auto, unfolding(crate::specs::Refusals::padding))]
    pub fn padding(&self, align: u64) -> u64
        requires { 0 < align }
        ensures exact { result ≡ want.padding align self.now }
        ensures small { result ≤ align }
    {
        let relaxed = is_text(self.sections.current_kind()) && self.relax;
        padding_of(relaxed, align, self.sections.current_size())
    }

    fn takes_padding(&self, n: u64) -> bool
        ensures { result ≡ want.takes_padding n self.now }
    {
        (!is_text(self.sections.current_kind()) || n % 4 == 0) && self.has_room(n as u128)
    }

    /// Whether there may be one more section, where this one is new.
    fn takes_section(&self, name: &[u8]) -> bool
        ensures { result ≡ want.takes_section name.now self.now }
    {
        self.sections.has(name) || self.sections.len() < SECTION_LIMIT
    }

    /// Whether the current section takes what a statement says, or there may be one more section.
    #[tactic(auto, unfolding(crate::specs::Refusals::fits))]
    fn fits(&self, statement: &Statement) -> bool
        requires { Bounded statement.now }
        ensures { result ≡ want.fits statement.now self.now }
    {
        match statement {
            Statement::Section { name, .. } => self.takes_section(name.as_slice()),
            Statement::Values { width, items } => {
                self.takes_bytes(*width as u128 * items.len() as u128)
            }
            Statement::Ascii(bytes) => self.takes_bytes(bytes.len() as u128),
            Statement::Zero(n) => self.has_room(*n as u128),
            Statement::Align(align) => self.takes_padding(self.padding(*align)),
            Statement::Code { .. } => self.takes_bytes(4),
            Statement::Call { .. } => self.takes_bytes(8),
            _ => true,
        }
    }

    /// Why a statement that doesn't fit is refused.
    fn misfit(&self, statement: &Statement) -> AsmWhy
        ensures { result ≡ want.misfit statement.now self.now }
    {
        match statement {
            Statement::Code {
                insn,
                fixup: Some(fixup),
            } => self.number_or_section(*insn, fixup),
            _ => AsmWhy::Section,
        }
    }

    fn number_or_section(&self, insn: Insn, fixup: &Fixup) -> AsmWhy
        ensures { result ≡ want.misfit_branch insn fixup.now self.now }
    {
        if self.is_too_far(insn, fixup) {
            AsmWhy::Number
        } else {
            AsmWhy::Section
        }
    }

    /// Why a statement can't stand here, if it can't.
    #[tactic(auto, unfolding(crate::specs::Refusals::refusal))]
    pub fn refusal(&self, label: &Option<Name>, statement: &Statement) -> Option<AsmWhy>
        requires { Bounded statement.now }
        ensures { result ≡ want.refusal label.now statement.now self.now }
    {
        if self.takes_name(label, statement) {
            return Some(AsmWhy::Name);
        }
        if self.fits(statement) {
            return None;
        }
        Some(self.misfit(statement))
    }
}
