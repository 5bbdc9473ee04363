//! Whether the lines of a client ended as its calls say.

use crate::asked::{Asked, Sought};
use crate::call_list::SeatCalls;
use crate::given::Given;
use crate::lookups::{ended_so, read_lookup, read_stopped};
use crate::replay::LabEntry;
use crate::runs::runs_so;
use crate::unit::LabUnit;
use exec_run::RunEnd;
use orc_ids::{NameId, Stop};
use script_model::LineEnd;
use session_model::{Event, LookEnd, Reply, same_reply};
use std::alloc::{AllocError, Global};

/// A client that is judged: its calls, and what its lookups have given so far.
#[derive(Drop)]
struct Judged<'a> {
    jmax: u64,
    journal: &'a [LabEntry],
    calls: SeatCalls<'a>,
    given: Given,
}

/// The event is the one that a line of one call asks for.
fn is_asked(event: &Event<LabUnit>, line: &Asked) -> bool {
    match (line, event) {
        (Asked::Define(d, t), Event::Define(dylib, tracker, _)) => d == dylib && t == tracker,
        (Asked::Move(t, to), Event::MoveTracker(from, other)) => t == from && to == other,
        (Asked::Remove(t), Event::Remove(tracker)) => t == tracker,
        _ => false,
    }
}

impl<'a> Judged<'a> {
    /// A line of one call was answered so.
    fn was_answered(&mut self, line: &Asked, reply: &Reply) -> bool {
        match self.calls.next() {
            Some(call) => is_asked(&call.entry.event, line) && same_reply(&call.entry.reply, reply),
            None => false,
        }
    }

    /// Keeps what a lookup gave.
    fn keep(&mut self, sought: &Sought, end: &LookEnd) -> Result<(), AllocError> {
        match end {
            LookEnd::Found(matches) => {
                self.given
                    .add(sought.level, sought.wanted.as_slice(), matches.as_slice())
            }
            _ => Ok(()),
        }
    }

    /// A lookup ended so.
    fn has_looked(&mut self, line: &Asked, end: &LookEnd) -> Result<bool, AllocError> {
        let Asked::LookUp(sought) = line else {
            return Ok(false);
        };
        let Some(reply) = read_lookup(&mut self.calls, sought) else {
            return Ok(false);
        };
        self.keep(sought, end)?;
        Ok(ended_so(end, reply))
    }

    /// A run from the name ended so.
    fn has_run(
        &mut self,
        alloc: Global,
        name: NameId,
        argument: u64,
        end: RunEnd,
    ) -> Result<bool, AllocError> {
        let Some(address) = self.given.address(name) else {
            return Ok(false);
        };
        let Some(call) = self.calls.next() else {
            return Ok(false);
        };
        if !matches!(&call.entry.event, Event::Image) {
            return Ok(false);
        }
        let Some(past) = self.journal.get(..call.at) else {
            return Ok(false);
        };
        runs_so(alloc, self.jmax, past, address, argument, end)
    }

    /// The line is a run of a name without an address.
    fn is_unfound(&self, line: &Asked) -> bool {
        match line {
            Asked::Run(name, _) => self.given.address(*name).is_none(),
            _ => false,
        }
    }

    /// The calls that are left are a copy of the memory, or none.
    fn may_have_copied(&mut self) -> bool {
        match self.calls.next() {
            Some(call) => matches!(&call.entry.event, Event::Image),
            None => true,
        }
    }

    /// The line was stopped: a lookup among its calls, a run at its copy or behind it, and any other before its
    /// only call.
    fn was_stopped(&mut self, line: &Asked, stop: Stop) -> bool {
        let began = match line {
            Asked::LookUp(sought) => read_stopped(&mut self.calls, sought),
            Asked::Run(_, _) => self.may_have_copied(),
            _ => true,
        };
        began && self.may_stop(stop)
    }

    /// The journal came to the length at which it was full.
    fn may_stop(&self, stop: Stop) -> bool {
        match stop {
            Stop::JournalFull(len) => len <= self.journal.len() as u64 && len <= self.jmax,
            Stop::NoMemory => true,
        }
    }

    /// The line ended so.
    fn has_ended(
        &mut self,
        alloc: Global,
        line: &Asked,
        end: &LineEnd,
    ) -> Result<bool, AllocError> {
        match (end, line) {
            (LineEnd::Replied(reply), line) => Ok(self.was_answered(line, reply)),
            (LineEnd::Looked(end), line) => self.has_looked(line, end),
            (LineEnd::Ran(end, output), Asked::Run(name, argument)) => {
                let silent = output.is_empty();
                Ok(self.has_run(alloc, *name, *argument, *end)? && silent)
            }
            (LineEnd::Unfound, line) => Ok(self.is_unfound(line)),
            (LineEnd::Peeked(told), Asked::Peek(name)) => Ok(self.given.may_tell(*name, *told)),
            (LineEnd::Stopped(stop), line) => Ok(self.was_stopped(line, *stop)),
            _ => Ok(false),
        }
    }
}

/// Whether the lines of the client on the seat ended so, by its calls.
pub fn lines_agree(
    alloc: Global,
    jmax: u64,
    journal: &[LabEntry],
    seat: u32,
    lines: &[Asked],
    ends: &[LineEnd],
) -> Result<bool, AllocError> {
    let mut judged = Judged {
        jmax,
        journal,
        calls: SeatCalls::new(journal, seat),
        given: Given::new(alloc),
    };
    let mut stopped = false;
    for (line, end) in lines.iter().zip(ends) {
        let agrees = if stopped {
            matches!(end, LineEnd::Skipped)
        } else {
            judged.has_ended(alloc, line, end)?
        };
        if !agrees {
            return Ok(false);
        }
        stopped = stopped || matches!(end, LineEnd::Stopped(_));
    }
    Ok(lines.len() == ends.len() && judged.calls.next().is_none())
}
