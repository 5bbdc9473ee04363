ghost use Rattle.std.specs.Prelude.{◌≡◌, ◌≤◌, ◌++◌, ℕ, List, IfOk};
ghost use Rattle.answers.specs.EndLine.{end_line_of};
ghost use Rattle.answers.specs.Written.{IsWritten, IsFinished, held_by};

use crate::running::Found;
use answers::{Answer, end_line};
use orc_io::{Sink, write_all};
use std::alloc::{AllocError, Global};

/// Writes what was found, and answers it.
pub fn write_found<O: Sink, L: Sink>(
    alloc: Global,
    found: Found,
    out: &mut O,
    log: &mut L,
) -> Answer
    ensures written { IsFinished
        (held_by (O.held out.old) (O.faults out.old)) (held_by (O.held out.new) (O.faults out.new))
        (held_by (L.held log.old) (L.faults log.old)) (held_by (L.held log.new) (L.faults log.new))
        found.answer found.output found.journal result }
    ensures out_counted { O.faults out.old ≤ O.faults out.new }
    ensures log_counted { L.faults log.old ≤ L.faults log.new }
{
    let Found {
        answer,
        output,
        journal,
    } = found;
    match log_text(alloc, journal.as_slice(), &answer) {
        Ok(text) => write_texts(answer, output.as_slice(), &text, out, log),
        Err(_) => write_texts(Answer::NoMemory, b"", b"end no memory\n", out, log),
    }
}

/// The text of a log: a journal, and then the end line.
fn log_text(alloc: Global, journal: &[u8], answer: &Answer) -> Result<Vec<u8>, AllocError>
    ensures { IfOk result (λ text. text.items ≡ journal.now ++ end_line_of answer.now) }
{
    let mut text = journal.to_vec(alloc)?;
    text.extend_from_slice(end_line(alloc, answer)?.as_slice())?;
    Ok(text)
}

/// Writes the output of a run on out, and then a journal and the end line on log. A write that fails
/// ends it.
fn write_texts<O: Sink, L: Sink>(
    answer: Answer,
    output: &[u8],
    text: &[u8],
    out: &mut O,
    log: &mut L,
) -> Answer
    ensures written { (journal : List ℕ) → text.now ≡ journal ++ end_line_of answer → IsWritten
        (held_by (O.held out.old) (O.faults out.old)) (held_by (O.held out.new) (O.faults out.new))
        (held_by (L.held log.old) (L.faults log.old)) (held_by (L.held log.new) (L.faults log.new))
        answer output.now journal result }
    ensures out_counted { O.faults out.old ≤ O.faults out.new }
    ensures log_counted { L.faults log.old ≤ L.faults log.new }
{
    if write_all(out, output).is_err() {
        return Answer::WriteFault;
    }
    if write_all(log, text).is_err() {
        return Answer::WriteFault;
    }
    answer
}
