//! What an output or a log is to be.

use super::texts::{all_in, is_in_order, is_like, last_line, results_of, text_of};
use sample_objects::HELLO;

/// What the bytes of a sink are to be.
#[derive(Clone, Copy)]
pub enum Expected {
    /// These bytes.
    Bytes(&'static [u8]),
    /// This text.
    Text(&'static str),
    /// The first bytes of `hello.o`, so many.
    Hello(usize),
    /// So many bytes.
    Length(usize),
    /// Some lines, of which this is the last.
    LastLine(&'static [u8]),
    /// The text of a session with these entries in its journal, and with these results.
    Results {
        entries: &'static str,
        results: &'static str,
    },
    /// The text of a session with these results, whose entries are numbered in order.
    InOrder(&'static str),
    /// A text with each of these.
    Holding(&'static [&'static str]),
    /// This text, but for a part where it stands first.
    Like {
        text: &'static str,
        part: &'static str,
        in_its_place: &'static str,
    },
    Anything,
}

impl Expected {
    /// Whether bytes are as they are to be.
    pub fn is_met(self, bytes: &[u8]) -> bool {
        match self {
            Expected::Bytes(all) => bytes == all,
            Expected::Text(all) => bytes == all.as_bytes(),
            Expected::Hello(count) => HELLO.get(..count) == Some(bytes),
            Expected::Length(length) => bytes.len() == length,
            Expected::LastLine(line) => last_line(bytes) == line,
            Expected::Results { entries, results } => has_results(text_of(bytes), entries, results),
            Expected::InOrder(results) => is_ordered(text_of(bytes), results),
            Expected::Holding(parts) => all_in(parts, text_of(bytes)),
            Expected::Like {
                text,
                part,
                in_its_place,
            } => is_like(text_of(bytes), text, part, in_its_place),
            Expected::Anything => true,
        }
    }

    /// The text that is looked for, or a part of it.
    pub fn text(self) -> &'static str {
        match self {
            Expected::Bytes(text) | Expected::LastLine(text) => text_of(text),
            Expected::Text(text)
            | Expected::InOrder(text)
            | Expected::Results { results: text, .. } => text,
            Expected::Like { in_its_place, .. } => in_its_place,
            Expected::Hello(_) | Expected::Length(_) | Expected::Holding(_) | Expected::Anything =>
                "",
        }
    }
}

/// Whether a session's text has these entries and these results.
fn has_results(text: &str, entries: &str, results: &str) -> bool {
    results_of(text) == results && text.contains(entries)
}

/// Whether a session's text has these results, and its entries in order.
fn is_ordered(text: &str, results: &str) -> bool {
    results_of(text) == results && is_in_order(text)
}
