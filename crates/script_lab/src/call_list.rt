//! The calls of one seat, in order.

use crate::replay::LabEntry;
use crate::unit::LabUnit;
use session_model::Event;

/// The calls of a seat, the first of which are read.
#[derive(Drop)]
pub struct SeatCalls<'a> {
    journal: &'a [LabEntry],
    seat: u32,
    next: usize,
}

/// A call that was read.
#[derive(Clone, Copy)]
pub struct SeatCall<'a> {
    /// The number of its entry, from 0.
    pub at: usize,
    pub entry: &'a LabEntry,
}

impl<'a> SeatCalls<'a> {
    /// All calls of the seat.
    pub fn new(journal: &'a [LabEntry], seat: u32) -> SeatCalls<'a> {
        SeatCalls {
            journal,
            seat,
            next: 0,
        }
    }

    /// Reads the next call.
    pub fn next(&mut self) -> Option<SeatCall<'a>> {
        let start = self.next;
        for (k, entry) in self.journal.iter().enumerate() {
            if k >= start && entry.seat.0 == self.seat {
                self.next = k.saturating_add(1);
                return Some(SeatCall { at: k, entry });
            }
        }
        None
    }

    /// How many calls there can be.
    pub fn most(&self) -> usize {
        self.journal.len()
    }
}

/// The event is a call of a job.
pub fn is_of_job(event: &Event<LabUnit>) -> bool {
    matches!(
        event,
        Event::Take
            | Event::Place(_, _)
            | Event::Resolve(_)
            | Event::Link(_)
            | Event::Generate(_)
            | Event::Emit(_, _)
            | Event::Fail(_, _)
    )
}

/// Whether each call of a seat is of a job.
pub fn does_jobs_alone(journal: &[LabEntry], seat: u32) -> bool {
    journal
        .iter()
        .all(|e| e.seat.0 != seat || is_of_job(&e.event))
}
