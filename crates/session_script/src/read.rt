ghost use Rattle.std.specs.Prelude.{◌≡◌, ◌≢◌, ◌≤◌, map, Ok, Err, OnOk, IfOk, IfErr};
ghost use Rattle.session_script.specs.declared.error.ScriptError.TheVariants as error;
ghost use Rattle.session_script.specs.declared.limits.TheConstants.{LINE_LIMIT};
ghost use Rattle.session_script.specs.Words.{lines_of};
ghost use Rattle.session_script.specs.Known.{IsRefusal};
ghost use Rattle.session_script.specs.Scripts.{worded_line, line_in, numbered_line, lines_from, ended, script_of, error_of};
ghost use Rattle.session_script.specs.WellFormed.{IsWellFormed};

use crate::error::{Refusal, ScriptError, ScriptWhy};
use crate::limits::{LINE_LIMIT, SIZE_LIMIT};
use crate::reader::Reader;
use crate::script::Script;
use crate::words::{cut, has_barred, is_skipped, is_spaced, split};
use orc_names::NameHasher;
use std::alloc::Global;

/// The script of bytes, for a session that has so many notes. Names are found by the hash of a
/// hasher whose seed strangers can't know, or by a fixed one.
pub fn read_script(
    alloc: Global,
    bytes: &[u8],
    notes: u32,
    hasher: NameHasher,
) -> Result<Script, ScriptError>
    ensures read { IfOk result (λ script. script_of notes bytes.now ≡ Ok script) }
    ensures well_formed { IfOk result (λ script. IsWellFormed notes script) }
    ensures refused { IfErr result (λ e. e ≢ error.NoMemory → script_of notes bytes.now ≡ Err e) }
{
    let mut reader = Reader::new(alloc, hasher, notes);
    reader.read_all(bytes)?;
    Ok(reader.into_script())
}

/// Why there is no script, where the line of this number wasn't read.
fn error_of(number: u32, refusal: Refusal) -> ScriptError
    ensures { result ≡ error_of number refusal }
{
    match refusal {
        Refusal::Line(why) => ScriptError::BadLine(number, why),
        Refusal::NoMemory => ScriptError::NoMemory,
    }
}

impl Reader {
    /// Reads all lines, and ends the last client.
    fn read_all(&mut self, bytes: &[u8]) -> Result<(), ScriptError>
        ensures read { OnOk result (ended (lines_from self.old 0 0 (lines_of bytes.now)) ≡ Ok self.new) }
        ensures refused { IfErr result (λ e. e ≢ error.NoMemory → ended (lines_from self.old 0 0 (lines_of bytes.now)) ≡ Err e) }
    {
        self.read_lines(bytes)?;
        match self.end_client() {
            Ok(()) => Ok(()),
            Err(_) => Err(ScriptError::NoMemory),
        }
    }

    fn read_lines(&mut self, bytes: &[u8]) -> Result<(), ScriptError>
        ensures read { OnOk result (lines_from self.old 0 0 (lines_of bytes.now) ≡ Ok self.new) }
        ensures refused { IfErr result (λ e. e ≢ error.NoMemory → lines_from self.old 0 0 (lines_of bytes.now) ≡ Err e) }
    {
        let mut rest = bytes;
        let mut number = 0;
        while !rest.is_empty() {
            let (line, after) = cut(rest, b'\n');
            number += 1;
            let size = bytes.len() - after.len();
            if let Err(refusal) = self.read_numbered(number, size, line) {
                return Err(error_of(number, refusal));
            }
            rest = after;
        }
        Ok(())
    }

    /// A line without its newline, with its number and the number of bytes up to its end.
    fn read_numbered(&mut self, number: u32, size: usize, line: &[u8]) -> Result<(), Refusal>
        ensures read { OnOk result (numbered_line self.old number size line.now ≡ Ok self.new) }
        ensures few { OnOk result (number ≤ LINE_LIMIT) }
        ensures refused { IfErr result (λ e. IsRefusal (numbered_line self.old number size line.now) e) }
    {
        if number > LINE_LIMIT || size > SIZE_LIMIT {
            return Err(Refusal::Line(ScriptWhy::TooLong));
        }
        self.read_line(line)
    }

    fn read_line(&mut self, line: &[u8]) -> Result<(), Refusal>
        ensures read { OnOk result (line_in self.old line.now ≡ Ok self.new) }
        ensures refused { IfErr result (λ e. IsRefusal (line_in self.old line.now) e) }
    {
        if is_skipped(line) {
            return Ok(());
        }
        let words = split(self.alloc(), line, b' ')?;
        if !(!has_barred(line) && is_spaced(&words)) {
            return Err(Refusal::Line(ScriptWhy::Bytes));
        }
        self.read_words(&words)
    }

    fn read_words(&mut self, words: &[&[u8]]) -> Result<(), Refusal>
        ensures read { OnOk result (worded_line self.old (map (λ w. w.now) words.now) ≡ Ok self.new) }
        ensures refused { IfErr result (λ e. IsRefusal (worded_line self.old (map (λ w. w.now) words.now)) e) }
    {
        let [first, operands @ ..] = words else {
            return Err(Refusal::Line(ScriptWhy::Word));
        };
        if *first == b"client".as_slice() {
            return self.read_client(operands);
        }
        if self.has_client() {
            self.read_call(first, operands)
        } else {
            self.read_setup(first, operands)
        }
    }
}
