//! The calls of a table are made on a session, and each answer is judged.

ghost use Rattle.std.specs.Prelude.{◌≤◌};
ghost use Rattle.execution_session.specs.declared.session.TheConstants.{JOURNAL_LIMIT};

use super::said::{Said, call_of};
use super::{Row, Says};
use journal_text::{are_known, text_of};
use notifiers::FiredList;
use orc_ids::{Bytes, SeatNo, Stop};
use orc_io::Note;
use orc_names::{NameError, Names};
use session_check::KnownUnit;
use session_model::{Entry, Reply};
use session_shadow::{Judged, Made};
use std::alloc::{AllocError, Global};
use std::process::Abort;
use std::test::Fail;
use test_words::write_answer;

/// The names of the journals, from 0.
fn names(alloc: Global) -> Result<Names, NameError> {
    let mut names = Names::new(alloc);
    for name in ["main", "f", "h", "k", "nosuch"] {
        names.intern(name.as_bytes())?;
    }
    Ok(names)
}

/// Whether the answer, which makes no entry, is the one of the table.
fn is_silent(alloc: Global, answer: &Result<Reply, Stop>, says: &Says) -> Result<bool, AllocError> {
    match says {
        Says::NoEntry(text) => {
            let mut words = String::new(alloc);
            write_answer(&mut words, answer)?;
            Ok(words.as_str() == *text)
        }
        Says::Entry(_) => Ok(false),
    }
}

fn is_entry(says: &Says) -> bool {
    match says {
        Says::Entry(_) => true,
        Says::NoEntry(_) => false,
    }
}

/// Whether an answer without an entry comes just where the table has it. The entries are read at the end.
fn is_said(alloc: Global, answer: &Result<Reply, Stop>, says: &Says) -> Result<bool, AllocError> {
    match answer {
        Ok(Reply::Open) | Ok(Reply::Idle(_)) | Err(_) => is_silent(alloc, answer, says),
        Ok(_) => Ok(is_entry(says)),
    }
}

fn is_answered(alloc: Global, made: Made, says: &Says) -> Result<bool, AllocError> {
    match made {
        Made::Answered(answer) => is_said(alloc, &answer, says),
        Made::PassedOver | Made::Lost => Ok(false),
    }
}

/// Makes one call: whether it can be made, and its answer is a right one and as the table says.
fn answers<const JMAX: usize>(
    alloc: Global,
    judged: &mut Judged<Note, JMAX>,
    seat: u32,
    said: &Said,
    says: &Says,
) -> Result<bool, Fail> {
    let call = call_of(alloc, said)?;
    let mut heard = FiredList::new();
    let made = judged.make(alloc, &mut heard, SeatNo(seat), call);
    Ok(is_answered(alloc, made, says)? && judged.shadow().is_some())
}

/// The text of the entries, whose names are all known.
fn text(alloc: Global, entries: &[Entry<KnownUnit>]) -> Result<Bytes, Fail> {
    let names = names(alloc)?;
    if !are_known(entries, &names) {
        return Err(Fail::from("a name is unknown"));
    }
    Ok(text_of(alloc, entries, &names)?)
}

/// What comes after this part, where the text begins with it.
fn after<'a>(text: &'a [u8], part: &str) -> Option<&'a [u8]> {
    if text.len() < part.len() {
        return None;
    }
    let (first, rest) = text.split_at(part.len());
    if first == part.as_bytes() {
        Some(rest)
    } else {
        None
    }
}

/// What comes after the line of the row, if it has one.
fn after_line<'a>(text: &'a [u8], says: &Says) -> Option<&'a [u8]> {
    match says {
        Says::Entry(line) => after(after(text, line)?, "\n"),
        Says::NoEntry(_) => Some(text),
    }
}

/// The first row whose line the text hasn't in its place; their count where the text goes on after them.
fn other_line(text: &[u8], rows: &[Row]) -> Option<usize> {
    let mut rest = text;
    for (k, (_, _, says)) in rows.iter().enumerate() {
        match after_line(rest, says) {
            Some(more) => rest = more,
            None => return Some(k),
        }
    }
    if rest.is_empty() {
        None
    } else {
        Some(rows.len())
    }
}

/// The first row that isn't answered rightly, or not as the table says.
fn other_answer<const JMAX: usize>(
    alloc: Global,
    judged: &mut Judged<Note, JMAX>,
    rows: &[Row],
) -> Result<Option<usize>, Fail> {
    for (k, (seat, said, says)) in rows.iter().enumerate() {
        if !answers(alloc, judged, *seat, said, says)? {
            return Ok(Some(k));
        }
    }
    Ok(None)
}

/// The first row that is answered otherwise, or that another line is written for.
fn other<const JMAX: usize>(
    alloc: Global,
    judged: &mut Judged<Note, JMAX>,
    rows: &[Row],
) -> Result<Option<usize>, Fail> {
    if let Some(k) = other_answer(alloc, judged, rows)? {
        return Ok(Some(k));
    }
    Ok(other_line(text(alloc, judged.journal())?.as_slice(), rows))
}

/// The first row, from 0, of which something else comes in a session whose journal has so many places.
fn other_row<const JMAX: usize>(alloc: Global, rows: &[Row]) -> Result<Option<usize>, Fail>
    requires { JMAX ≤ JOURNAL_LIMIT }
{
    let mut judged = Judged::<Note, JMAX>::open(alloc)?;
    let row = other(alloc, &mut judged, rows);
    judged.end();
    row
}

/// In a session whose journal has so many places, each of the calls is answered rightly, and as its row says.
pub(super) fn check<const JMAX: usize>(
    rt: &impl Abort,
    alloc: Global,
    rows: &[Row],
) -> Result<(), Fail>
    requires { JMAX ≤ JOURNAL_LIMIT }
{
    assert_eq!(rt; other_row::<JMAX>(alloc, rows)?, None);
    Ok(())
}
