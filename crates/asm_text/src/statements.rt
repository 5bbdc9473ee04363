ghost use Rattle.std.specs.Prelude.{◌≡◌, ◌≤◌, true, length, OnOk};
ghost use Rattle.asm_lines.specs.Statements.{Encodable};
ghost use Rattle.asm_text.specs.Bounds.{Bounded, HasRoom};
ghost use Rattle.asm_text.specs.Refusals.{takes_bytes, has_room};
ghost use Rattle.asm_text.specs.Said as want;

use crate::assembler::Assembler;
use asm_lines::Statement;
use std::alloc::AllocError;

impl<'a> Assembler<'a> {
    /// `.ascii`
    fn put_ascii(&mut self, bytes: &[u8]) -> Result<(), AllocError>
        requires { takes_bytes (length bytes.now) self.old ≡ true }
        ensures { OnOk result (self.new ≡ want.with_ascii bytes.now self.old) }
    {
        if bytes.is_empty() {
            return Ok(());
        }
        self.sections.put_bytes(bytes)
    }

    /// `.zero`
    fn put_zeros(&mut self, n: u64) -> Result<(), AllocError>
        requires { has_room n self.old ≡ true }
        ensures { OnOk result (self.new ≡ want.with_gap n self.old) }
    {
        if n == 0 {
            return Ok(());
        }
        self.sections.put_zeros(n)
    }

    /// What a statement says of bytes.
    #[tactic(auto, unfolding(crate::specs::Said::stated))]
    fn put_contents(&mut self, line: u32, statement: &Statement<'a>) -> Result<(), AllocError>
        requires bounded { Bounded statement.now }
        requires encodable { Encodable statement.now }
        requires room { HasRoom statement.now self.old }
        ensures { OnOk result (self.new ≡ want.contained line statement.now self.old) }
    {
        match statement {
            Statement::Values { width, items } => self.put_items(*width, items.as_slice()),
            Statement::Ascii(bytes) => self.put_ascii(bytes.as_slice()),
            Statement::Zero(n) => self.put_zeros(*n),
            Statement::Align(align) => self.put_align(*align),
            Statement::Code { insn, fixup } => self.put_insn(line, *insn, fixup),
            Statement::Call {
                first,
                second,
                symbol,
            } => self.put_call(*first, *second, symbol.as_slice()),
            _ => Ok(()),
        }
    }

    /// What a statement says.
    #[tactic(auto, unfolding(crate::specs::Said::stated))]
    pub fn put_statement(&mut self, line: u32, statement: &Statement<'a>) -> Result<(), AllocError>
        requires bounded { Bounded statement.now }
        requires encodable { Encodable statement.now }
        requires room { HasRoom statement.now self.old }
        ensures { OnOk result (self.new ≡ want.stated line statement.now self.old) }
    {
        match statement {
            Statement::Section { name, kind } => self.sections.enter(name.as_slice(), *kind),
            Statement::Global(symbol) => self.symbols.make_global(symbol.as_slice()),
            Statement::Weak(symbol) => self.symbols.make_weak(symbol.as_slice()),
            Statement::Hidden(symbol) => self.symbols.make_hidden(symbol.as_slice()),
            Statement::Common {
                symbol,
                size,
                align,
            } => self.symbols.define_common(symbol.as_slice(), *size, *align),
            Statement::Relax(relax) => {
                self.relax = *relax;
                Ok(())
            }
            _ => self.put_contents(line, statement),
        }
    }
}
