//! Tables of calls with their expected answers, which are played on a session.

ghost use Rattle.std.specs.Prelude.{◌≤◌};
ghost use Rattle.execution_session.specs.declared.session.TheConstants.{JOURNAL_LIMIT};

use super::calls::{Call, Tried, make};
use super::entries::write_entry;
use super::items::{Lookup, asks_each};
use super::limits::{Kind, makes};
use super::units::Named;
use execution_session::{JOURNAL_LIMIT, Session};
use orc_ids::{OrderItem, SeatNo};
use session_model::Entry;
use std::alloc::{AllocError, Global};
use std::process::Abort;

/// A row of a table.
#[derive(Clone, Copy)]
pub(super) enum Step<'a> {
    /// The seat makes the call, and the answer is printed so.
    By(SeatNo, Call<'a>, &'a str),
    /// So many of the kind are made, which have the numbers from 0.
    Many(Kind, u32),
    /// Each of the lookups is made in the order.
    Each(&'a [OrderItem], &'a [Lookup<'a>]),
    /// The session hands out a notifier of this note.
    HandsOut(u32),
    /// The entries of the journal are printed so.
    Journal(&'a [&'a str]),
}

/// A list of rows.
pub(super) type Table = &'static [Step<'static>];

/// Makes the call, and writes what it is answered. Nothing is written of a call without an answer.
pub(super) fn write_answer<const JMAX: usize>(
    alloc: Global,
    session: &mut Tried<JMAX>,
    s: SeatNo,
    call: Call,
    text: &mut String,
) {
    text.clear();
    if let Some(answer) = make(alloc, session, s, call) {
        let _written = answer.print(text);
    }
}

/// Makes the call, which is answered so. What it is answered is written.
fn is_answered<const JMAX: usize>(
    alloc: Global,
    session: &mut Tried<JMAX>,
    s: SeatNo,
    call: Call,
    said: &str,
    text: &mut String,
) -> bool {
    write_answer(alloc, session, s, call, text);
    text.as_str() == said
}

/// The entry is printed so.
fn is_printed(entry: &Entry<Named>, said: &str, text: &mut String) -> bool {
    text.clear();
    let _written = write_entry(text, entry);
    text.as_str() == said
}

/// The entries are printed so.
fn are_printed(entries: &[Entry<Named>], said: &[&str], text: &mut String) -> bool {
    for (entry, said) in entries.iter().zip(said) {
        if !is_printed(entry, said, text) {
            return false;
        }
    }
    entries.len() == said.len()
}

/// The session hands out a notifier of this note.
fn hands_out<const JMAX: usize>(session: &mut Tried<JMAX>, note: u32) -> bool {
    match session.give_back() {
        Some(armed) => {
            let given = armed.note();
            let _object = armed.back();
            given == note
        }
        None => false,
    }
}

/// Plays the row, which goes so. What was answered last is written.
fn goes_so<const JMAX: usize>(
    alloc: Global,
    session: &mut Tried<JMAX>,
    step: Step,
    text: &mut String,
) -> bool {
    match step {
        Step::By(s, call, said) => is_answered(alloc, session, s, call, said, text),
        Step::Many(kind, count) => makes(alloc, session, kind, count, text),
        Step::Each(order, lookups) => asks_each(alloc, session, order, lookups, text),
        Step::HandsOut(note) => hands_out(session, note),
        Step::Journal(said) => are_printed(session.journal(), said, text),
    }
}

/// Plays the rows, up to the first that goes another way: its number, from 0.
fn wrong_row<const JMAX: usize>(
    alloc: Global,
    session: &mut Tried<JMAX>,
    steps: &[Step],
    text: &mut String,
) -> Option<usize> {
    for (row, step) in steps.iter().enumerate() {
        if !goes_so(alloc, session, *step, text) {
            return Some(row);
        }
    }
    None
}

/// Plays the tables, up to the first row that goes another way: the numbers of its table and its own, from 0.
fn wrong_place<const JMAX: usize>(
    alloc: Global,
    session: &mut Tried<JMAX>,
    tables: &[&[Step]],
    text: &mut String,
) -> Option<(usize, usize)> {
    for (table, steps) in tables.iter().enumerate() {
        if let Some(row) = wrong_row(alloc, session, steps, text) {
            return Some((table, row));
        }
    }
    None
}

/// Plays the tables: how many entries there are then, and the row that went another way, if one did.
fn play<const JMAX: usize>(
    alloc: Global,
    session: &mut Tried<JMAX>,
    tables: &[&[Step]],
) -> Result<String, AllocError> {
    let mut text = String::new(alloc);
    let wrong = wrong_place(alloc, session, tables, &mut text);
    let entries = session.journal().len();
    match wrong {
        None => format!(in alloc; "entries: {entries}"),
        Some((table, row)) => format!(in alloc;
            "entries: {entries}, step {row} of table {table}: {text}"
        ),
    }
}

/// Ends a session that has no notifiers.
fn end<const JMAX: usize>(rt: &impl Abort, session: Tried<JMAX>) {
    let mut session = session;
    match session.give_back() {
        None => session.end(),
        Some(armed) => {
            let _object = armed.back();
            panic!(rt; "a notifier is left")
        }
    }
}

/// Plays the tables on a session with so many places in its journal. In the end there are so many entries,
/// and no row, or this one, went another way; and no notifier is left.
pub(super) fn plays<const JMAX: usize>(
    rt: &impl Abort,
    alloc: Global,
    tables: &[&[Step]],
    ending: &str,
)
    requires { JMAX ≤ JOURNAL_LIMIT }
{
    let mut session: Tried<JMAX> = Session::open(alloc).expect(rt, "memory");
    let ended = play(alloc, &mut session, tables).expect(rt, "memory");
    assert_eq!(rt; ended.as_str(), ending);
    end(rt, session);
}
