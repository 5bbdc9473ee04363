ghost use Rattle.std.specs.Prelude.{◌≡◌, IfOk};
ghost use Rattle.asm_lines.specs.Statements.{Encodable};
ghost use Rattle.asm_text.specs.Bounds.{Bounded};
ghost use Rattle.asm_text.specs.Texts as want;

use crate::assembler::Assembler;
use crate::lines::Lines;
use crate::reading::BadLine;
use asm_lines::{AsmWhy, LineError, Name, Statement, label_of_line, statement_of_line};
use std::alloc::AllocError;

impl<'a> Assembler<'a> {
    /// What is said by the lines of a text, up to the first that is refused.
    pub fn read_lines(&mut self, text: &'a [u8]) -> Result<Option<BadLine>, AllocError>
        ensures { IfOk result (λ bad. want.read_from 0 self.old (want.lines_of text.now) ≡ (self.new, bad)) }
    {
        let mut lines = Lines::new(text);
        let mut number: u32 = 0;
        while let Some(line) = lines.next() {
            if number == u32::MAX {
                return Err(AllocError);
            }
            number += 1;
            if let Some(why) = self.read_line(number, line)? {
                return Ok(Some(BadLine { line: number, why }));
            }
        }
        Ok(None)
    }

    /// A line without its newline. Where it is refused, what is known stays.
    #[tactic(auto, unfolding(crate::specs::Texts::line_read))]
    fn read_line(&mut self, number: u32, line: &'a [u8]) -> Result<Option<AsmWhy>, AllocError>
        ensures { IfOk result (λ why. want.line_read number line.now self.old ≡ (self.new, why)) }
    {
        match label_of_line(line) {
            Err(why) => Ok(Some(why)),
            Ok(label) => self.read_labelled(number, &label, line),
        }
    }

    /// A line whose label is this one.
    fn read_labelled(
        &mut self,
        number: u32,
        label: &Option<Name<'a>>,
        line: &'a [u8],
    ) -> Result<Option<AsmWhy>, AllocError>
        ensures { IfOk result (λ why. want.labelled_read number label.now line.now self.old ≡ (self.new, why)) }
    {
        if let Some(why) = self.label_refusal(label) {
            return Ok(Some(why));
        }
        match statement_of_line(self.alloc, line) {
            Err(LineError::Bad(why)) => Ok(Some(why)),
            Err(LineError::NoMemory) => Err(AllocError),
            Ok(statement) => self.read_statement(number, label, &statement),
        }
    }

    /// A line whose label and statement are these.
    fn read_statement(
        &mut self,
        number: u32,
        label: &Option<Name<'a>>,
        statement: &Statement<'a>,
    ) -> Result<Option<AsmWhy>, AllocError>
        requires bounded { Bounded statement.now }
        requires encodable { Encodable statement.now }
        ensures { IfOk result (λ why. want.statement_read number label.now statement.now self.old ≡ (self.new, why)) }
    {
        if let Some(why) = self.refusal(label, statement) {
            return Ok(Some(why));
        }
        self.put_label(label)?;
        self.put_statement(number, statement)?;
        Ok(None)
    }
}
