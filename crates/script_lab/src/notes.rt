//! Whether each notifier was told the end of its own query, and only then.
ghost use Rattle.std.specs.Prelude.{◌≡◌, None};
ghost use Rattle.query_book.specs.Rows.{first_armed};

use crate::note::LabNote;
use crate::replay::LabEntry;
use crate::unit::LabUnit;
use execution_session::Session;
use notifiers::FiredList;
use orc_ids::{End, Outcome, QueryId};
use script_session::Notified;
use session_model::{Ending, Event, Reply};
use session_past::Settled;
use std::alloc::{AllocError, Global};

/// What became of a notifier.
#[derive(Clone, Copy, PartialEq, Eq)]
pub enum NoteEnd {
    /// It hasn't come back.
    Unseen,
    /// It was told this at a call of the seat.
    Told(Outcome, u32),
    /// No query had it, and it has heard nothing.
    Unlodged,
    /// An open query had it, and it has heard nothing.
    Open,
    /// It came back twice, or as another one, or with what it shouldn't have heard.
    Broken,
}

/// What became of each notifier.
#[derive(Drop)]
pub struct NoteEnds {
    ends: Vec<NoteEnd>,
}

/// The end where the notifier has heard what it should, or else the mark that it is broken.
fn checked(number: u32, what: &LabNote, heard: Option<Outcome>, end: NoteEnd) -> NoteEnd {
    if what.number == number && what.outcome == heard {
        end
    } else {
        NoteEnd::Broken
    }
}

impl NoteEnds {
    /// Of so many notifiers, none of which has come back.
    pub fn new(alloc: Global, count: u32) -> Result<NoteEnds, AllocError> {
        let mut ends = Vec::new(alloc);
        for _ in 0..count {
            ends.push(NoteEnd::Unseen)?;
        }
        Ok(NoteEnds { ends })
    }

    /// One has come back.
    fn put(&mut self, number: u32, end: NoteEnd) {
        if let Some(place) = self.ends.get_mut(number as usize) {
            *place = match place {
                NoteEnd::Unseen => end,
                _ => NoteEnd::Broken,
            };
        }
    }

    /// Those that were told at a seat's calls.
    fn put_told(&mut self, seat: u32, told: FiredList<LabNote>) {
        let mut told = told;
        while let Some((number, fired)) = told.pop() {
            let what = fired.object();
            let end = match what.outcome {
                Some(outcome) => NoteEnd::Told(outcome, seat),
                None => NoteEnd::Broken,
            };
            self.put(number, checked(number, &what, what.outcome, end));
        }
    }

    /// Those that no query had.
    fn put_unlodged(&mut self, notes: Vec<(u32, LabNote)>) {
        for (number, what) in notes {
            self.put(number, checked(number, &what, None, NoteEnd::Unlodged));
        }
    }

    /// Those that open queries have.
    fn put_open<const JMAX: usize>(&mut self, session: &mut Session<LabUnit, LabNote, JMAX>)
        ensures { first_armed session.new.armed ≡ None }
    {
        while let Some(armed) = session.give_back() {
            let number = armed.note();
            let what = armed.back();
            self.put(number, checked(number, &what, None, NoteEnd::Open));
        }
    }

    /// All have come back; the session has none then.
    pub fn gather<const JMAX: usize>(
        &mut self,
        session: &mut Session<LabUnit, LabNote, JMAX>,
        notified: Notified<LabNote>,
    )
        ensures { first_armed session.new.armed ≡ None }
    {
        let Notified { told, unlodged } = notified;
        let mut seat: u32 = 0;
        for told in told {
            seat = seat.saturating_add(1);
            self.put_told(seat, told);
        }
        for notes in unlodged {
            self.put_unlodged(notes);
        }
        self.put_open(session);
    }
}

/// The query that an entry lodged for the note.
fn lodged_by(entry: &LabEntry, note: u32) -> Option<QueryId> {
    match (&entry.event, &entry.reply) {
        (Event::Ask(_, _, _, Some(number)), Reply::Done(query) | Reply::Pending(query))
            if *number == note => { Some(*query) }
        _ => None,
    }
}

/// The query that was lodged for the note, if one was.
fn query_of(journal: &[LabEntry], note: u32) -> Option<QueryId> {
    journal.iter().find_map(|e| lodged_by(e, note))
}

/// What a query's notifier is to hear.
fn outcome_of(query: QueryId, settled: &Settled) -> Outcome {
    let end = match &settled.end {
        Ending::Found(_) => End::Found(settled.at),
        Ending::Lost(i) => End::Failed(settled.at, *i),
    };
    Outcome { query, end }
}

/// The seat that made the entry of this number, counted from 1.
fn seat_at(journal: &[LabEntry], at: u64) -> Option<u32> {
    let place = usize::try_from(at.checked_sub(1)?).ok()?;
    Some(journal.get(place)?.seat.0)
}

/// What becomes of the notifier of a query that has this end, or is open.
fn end_of_query(journal: &[LabEntry], query: QueryId, end: &Option<Settled>) -> NoteEnd {
    match end {
        Some(settled) => match seat_at(journal, settled.at) {
            Some(seat) => NoteEnd::Told(outcome_of(query, settled), seat),
            None => NoteEnd::Broken,
        },
        None => NoteEnd::Open,
    }
}

/// What should have become of a notifier, by the journal and the ends of its queries.
fn right_end(journal: &[LabEntry], ends: &[Option<Settled>], note: u32) -> NoteEnd {
    match query_of(journal, note) {
        Some(query) => match ends.get(query.0 as usize) {
            Some(end) => end_of_query(journal, query, end),
            None => NoteEnd::Broken,
        },
        None => NoteEnd::Unlodged,
    }
}

/// Whether a notifier has become what it should. One that no query had is lost where memory ran out as it was armed.
fn is_right(right: NoteEnd, end: NoteEnd, memory_ran_out: bool) -> bool {
    match (right, end) {
        (NoteEnd::Broken, _) => false,
        (NoteEnd::Unlodged, NoteEnd::Unseen) => memory_ran_out,
        _ => right == end,
    }
}

impl NoteEnds {
    /// Whether each has become what it should, by the journal and the ends of its queries.
    pub fn agree(
        &self,
        journal: &[LabEntry],
        ends: &[Option<Settled>],
        memory_ran_out: bool,
    ) -> bool {
        let mut note: u32 = 0;
        for end in self.ends.iter() {
            let right = right_end(journal, ends, note);
            if !is_right(right, *end, memory_ran_out) {
                return false;
            }
            note = note.saturating_add(1);
        }
        true
    }
}
