//! Rows are written as a journal, and its text is read beside them.

use super::Row;
use super::named::{Named, names};
use super::said::{Said, event_of};
use super::told::{Told, reply_of};
use journal_text::{are_known, text_of};
use orc_ids::{Bytes, SeatNo};
use session_model::Entry;
use std::alloc::{AllocError, Global};
use std::process::Abort;
use std::test::Fail;

fn entry_of(
    alloc: Global,
    seat: u32,
    said: &Said,
    told: &Told,
) -> Result<Entry<Named>, AllocError> {
    Ok(Entry {
        seat: SeatNo(seat),
        event: event_of(alloc, said)?,
        reply: reply_of(alloc, told)?,
    })
}

/// The text of the entries, whose names are all known.
fn text(alloc: Global, entries: &[Entry<Named>]) -> Result<Bytes, Fail> {
    let names = names(alloc)?;
    if !are_known(entries, &names) {
        return Err(Fail::from("a name is unknown"));
    }
    Ok(text_of(alloc, entries, &names)?)
}

/// What comes after this part, where the text begins with it.
fn after<'a>(text: &'a [u8], part: &str) -> Option<&'a [u8]> {
    if text.len() < part.len() {
        return None;
    }
    let (first, rest) = text.split_at(part.len());
    if first == part.as_bytes() {
        Some(rest)
    } else {
        None
    }
}

/// Whether the text is these parts.
fn is_made_of(text: &[u8], parts: &[&str]) -> bool {
    let mut rest = text;
    for part in parts {
        match after(rest, part) {
            Some(more) => rest = more,
            None => return false,
        }
    }
    rest.is_empty()
}

/// Whether the line of one entry of seat 12 is these parts.
pub(super) fn says(alloc: Global, said: &Said, told: &Told, parts: &[&str]) -> Result<bool, Fail> {
    let entries = vec![in alloc; entry_of(alloc, 12, said, told)?]?;
    Ok(is_made_of(text(alloc, &entries)?.as_slice(), parts))
}

/// The first of the rows, each of them a journal of its own, that another line is written for.
fn other_alone<'a>(alloc: Global, rows: &[(Said, Told, &'a str)]) -> Result<Option<&'a str>, Fail> {
    for (said, told, line) in rows {
        if !says(alloc, said, told, &[*line, "\n"])? {
            return Ok(Some(*line));
        }
    }
    Ok(None)
}

fn entries_of(alloc: Global, rows: &[Row]) -> Result<Vec<Entry<Named>>, AllocError> {
    let mut entries = Vec::new(alloc);
    for (seat, said, told, _) in rows {
        entries.push(entry_of(alloc, *seat, said, told)?)?;
    }
    Ok(entries)
}

/// The first of the lines that the text hasn't in its place; an empty one where the text goes on after them.
fn other_line<'a>(text: &[u8], rows: &[Row<'a>]) -> Option<&'a str> {
    let mut rest = text;
    for (_, _, _, line) in rows {
        match after(rest, line).and_then(|rest| after(rest, "\n")) {
            Some(more) => rest = more,
            None => return Some(*line),
        }
    }
    if rest.is_empty() { None } else { Some("") }
}

/// The first line of the journal of these rows that is another one.
fn other<'a>(alloc: Global, rows: &[Row<'a>]) -> Result<Option<&'a str>, Fail> {
    let entries = entries_of(alloc, rows)?;
    Ok(other_line(text(alloc, &entries)?.as_slice(), rows))
}

/// Each of the rows, as a journal of its own, is written so.
pub(super) fn check_each(
    rt: &impl Abort,
    alloc: Global,
    rows: &[(Said, Told, &str)],
) -> Result<(), Fail> {
    assert_eq!(rt; other_alone(alloc, rows)?, None);
    Ok(())
}

/// The journal of these rows is written so.
pub(super) fn check(rt: &impl Abort, alloc: Global, rows: &[Row]) -> Result<(), Fail> {
    assert_eq!(rt; other(alloc, rows)?, None);
    Ok(())
}
