ghost use Rattle.std.specs.Prelude.{◌≡◌, true, OnOk, IfOk};
ghost use Rattle.rv_insn.specs.Range.{InRange};
ghost use Rattle.asm_text.specs.Known as known;
ghost use Rattle.asm_text.specs.Refusals as refusals;
ghost use Rattle.asm_text.specs.Said as want;

use crate::assembler::Assembler;
use asm_lines::{Fixup, Name};
use asm_state::Target;
use rv_insn::Insn;
use std::alloc::AllocError;

/// `R_RISCV_CALL_PLT`.
const CALL_PLT: u32 = 19;

fn target_of(fills: bool, line: u32, symbol: u32) -> Option<Target>
    ensures { result ≡ want.target_of fills line symbol }
{
    fills.then_some(Target { symbol, line })
}

impl<'a> Assembler<'a> {
    /// The line's label.
    #[tactic(auto, unfolding(crate::specs::Said::labelled_line))]
    pub fn put_label(&mut self, label: &Option<Name<'a>>) -> Result<(), AllocError>
        ensures known { OnOk result (self.new ≡ want.labelled_line label.now self.old) }
        ensures kind { OnOk result (known.kind_here self.new ≡ known.kind_here self.old) }
        ensures size { OnOk result (known.size_here self.new ≡ known.size_here self.old) }
        ensures relax { OnOk result (self.new.relax ≡ self.old.relax) }
    {
        match label {
            None => Ok(()),
            Some(name) => self.define_label(name.as_slice()),
        }
    }

    fn define_label(&mut self, name: &'a [u8]) -> Result<(), AllocError>
        ensures known { OnOk result (self.new ≡ want.defined_here name.now self.old) }
        ensures kind { OnOk result (known.kind_here self.new ≡ known.kind_here self.old) }
        ensures size { OnOk result (known.size_here self.new ≡ known.size_here self.old) }
        ensures relax { OnOk result (self.new.relax ≡ self.old.relax) }
    {
        let section = self.sections.open()?;
        let offset = self.sections.current_size();
        self.symbols.define_label(name, section, offset)
    }

    /// A relocation against a symbol, of what stands next; tells the symbol's number.
    #[tactic(auto, unfolding(crate::specs::Said::against))]
    pub fn put_relocation(
        &mut self,
        kind: u32,
        name: &'a [u8],
        addend: i64,
        fills: bool,
    ) -> Result<u32, AllocError>
        ensures known { OnOk result (self.new ≡ want.against kind name.now addend fills self.old) }
        ensures number { IfOk result (λ number. number ≡ want.number_here name.now self.new) }
        ensures kind { OnOk result (known.kind_here self.new ≡ known.kind_here self.old) }
        ensures size { OnOk result (known.size_here self.new ≡ known.size_here self.old) }
    {
        let number = self.symbols.mention(name)?;
        self.sections.put_patch(kind, Some(number), addend, fills)?;
        Ok(number)
    }

    /// An instruction, and its relocation or the label that it is filled in for.
    #[tactic(auto, unfolding(crate::specs::Said::with_insn))]
    pub fn put_insn(
        &mut self,
        line: u32,
        insn: Insn,
        fixup: &Option<Fixup<'a>>,
    ) -> Result<(), AllocError>
        requires room { refusals.takes_bytes 4 self.old ≡ true }
        requires range { InRange insn }
        ensures { OnOk result (self.new ≡ want.with_insn line insn fixup.now self.old) }
    {
        match fixup {
            None => self.sections.put_code(insn, None),
            Some(fixup) => self.put_fixup(line, insn, fixup),
        }
    }

    fn put_fixup(&mut self, line: u32, insn: Insn, fixup: &Fixup<'a>) -> Result<(), AllocError>
        requires room { refusals.takes_bytes 4 self.old ≡ true }
        requires range { InRange insn }
        ensures { OnOk result (self.new ≡ want.with_fixup line insn fixup.now self.old) }
    {
        let fills = self.fills(fixup);
        let symbol = self.put_relocation(fixup.kind, fixup.symbol.as_slice(), fixup.addend, fills)?;
        self.sections.put_code(insn, target_of(fills, line, symbol))
    }

    /// `call` and `tail`: the relocation of the first instruction is that of both.
    #[tactic(auto, unfolding(crate::specs::Said::with_call))]
    pub fn put_call(
        &mut self,
        first: Insn,
        second: Insn,
        symbol: &'a [u8],
    ) -> Result<(), AllocError>
        requires room { refusals.takes_bytes 8 self.old ≡ true }
        requires first { InRange first }
        requires second { InRange second }
        ensures { OnOk result (self.new ≡ want.with_call first second symbol.now self.old) }
    {
        self.put_relocation(CALL_PLT, symbol, 0, false)?;
        self.sections.put_code(first, None)?;
        self.sections.put_code(second, None)
    }
}
