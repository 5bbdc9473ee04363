ghost use Rattle.std.specs.Prelude.{◌≡◌, IfOk, MatchOption, None, Some};
ghost use Rattle.asm_lines.specs.Lines as want;
ghost use Rattle.asm_lines.specs.Statements.{Answers, Encodable};
ghost use Rattle.asm_lines.specs.Words as words;

use crate::directives::worded_statement;
use crate::immediates::is_short;
use crate::name::Name;
use crate::quotes::bytes_before;
use crate::statement::{AsmWhy, LineError, Statement};
use crate::words::{after_blanks, after_place, code_of, is_symbol, split_word, trimmed};
use std::alloc::Global;

/// What stands before a label's colon, if there is a colon.
#[tactic(auto, unfolding(crate::specs::Words::has_label, crate::specs::Words::label_text))]
fn label_text(code: &[u8]) -> Option<&[u8]>
    ensures { MatchOption result (want.label_text_of code.now ≡ None) (λ text. want.label_text_of code.now ≡ Some text.now) }
{
    let colon = bytes_before(code, b':');
    if colon < code.len() {
        Some(after_blanks(&code[..colon]))
    } else {
        None
    }
}

/// The statement's text.
#[tactic(auto, unfolding(crate::specs::Words::has_label, crate::specs::Words::statement_text))]
fn statement_text(code: &[u8]) -> &[u8]
    ensures { result.now ≡ words.statement_text code.now }
{
    let colon = bytes_before(code, b':');
    if colon < code.len() {
        trimmed(after_place(code, colon))
    } else {
        trimmed(code)
    }
}

/// A label's name: a symbol of at most 4,096 bytes.
fn checked_label(text: &[u8]) -> Result<Option<Name<'_>>, AsmWhy>
    ensures { result ≡ want.checked_label text.now }
{
    let label = Name::new(text);
    if is_symbol(text) && is_short(&label) {
        Ok(Some(label))
    } else {
        Err(AsmWhy::Label)
    }
}

/// The label that a line begins with, if it has one; `line` has no newline. Whether the label is
/// defined already is the caller's to say.
#[tactic(auto, unfolding(crate::specs::Lines::label_of_line))]
pub fn label_of_line(line: &[u8]) -> Result<Option<Name<'_>>, AsmWhy>
    ensures { result ≡ want.label_of_line line.now }
{
    match label_text(code_of(line)) {
        None => Ok(None),
        Some(text) => checked_label(text),
    }
}

/// What a line says after its label; `line` has no newline.
#[tactic(auto, unfolding(crate::specs::Lines::statement_of_line))]
pub fn statement_of_line(alloc: Global, line: &[u8]) -> Result<Statement<'_>, LineError>
    ensures exact { Answers (want.statement_of_line line.now) result }
    ensures encodable { IfOk result Encodable }
{
    let text = statement_text(code_of(line));
    if text.is_empty() {
        return Ok(Statement::Nothing);
    }
    let (word, operands) = split_word(text);
    worded_statement(alloc, word, operands)
}
