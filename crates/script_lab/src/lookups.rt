//! The calls of lookups.

use crate::asked::Sought;
use crate::call_list::{SeatCalls, is_of_job};
use crate::replay::LabEntry;
use crate::unit::LabUnit;
use orc_ids::{GenId, InstId, QueryId};
use session_model::{Event, LookEnd, Reply};

/// The event asks for the names.
pub fn asks_for(event: &Event<LabUnit>, sought: &Sought) -> bool {
    match event {
        Event::Ask(order, wanted, level, note) => {
            order.as_slice() == sought.order.as_slice()
                && wanted.as_slice() == sought.wanted.as_slice()
                && *level == sought.level
                && *note == sought.note
        }
        _ => false,
    }
}

/// The event uses the generator.
fn uses(event: &Event<LabUnit>, generator: GenId) -> bool {
    match event {
        Event::Generate(used) => *used == generator,
        _ => false,
    }
}

/// The query whose end the event takes.
fn collected(event: &Event<LabUnit>) -> Option<QueryId> {
    match event {
        Event::Collect(query) => Some(*query),
        _ => None,
    }
}

/// Reads jobs, and then what a collect of the query was answered.
fn read_end<'a>(calls: &mut SeatCalls<'a>, query: QueryId) -> Option<&'a Reply> {
    for _ in 0..calls.most() {
        let call = calls.next()?;
        match collected(&call.entry.event) {
            Some(other) if other == query => return Some(&call.entry.reply),
            Some(_) => return None,
            None if is_of_job(&call.entry.event) => {}
            None => return None,
        }
    }
    None
}

/// What comes of an ask.
#[derive(Clone, Copy)]
enum AskEnd<'a> {
    /// The lookup ends with this reply.
    Over(&'a Reply),
    /// It was offered this generator.
    Offered(GenId),
    /// It waits for this query.
    Lodged(QueryId),
}

fn ask_end(reply: &Reply) -> AskEnd<'_> {
    match reply {
        Reply::Offer(generator) => AskEnd::Offered(*generator),
        Reply::Done(query) | Reply::Pending(query) => AskEnd::Lodged(*query),
        reply => AskEnd::Over(reply),
    }
}

/// Reads an ask, and the use of the generator that it was offered.
fn read_ask<'a>(calls: &mut SeatCalls<'a>, sought: &Sought) -> Option<AskEnd<'a>> {
    let call = calls.next()?;
    if !asks_for(&call.entry.event, sought) {
        return None;
    }
    let end = ask_end(&call.entry.reply);
    if let AskEnd::Offered(generator) = end {
        let used = calls.next()?;
        if !uses(&used.entry.event, generator) {
            return None;
        }
    }
    Some(end)
}

/// Reads the calls of a lookup: the reply that it ended with. None where the calls aren't those of a lookup.
pub fn read_lookup<'a>(calls: &mut SeatCalls<'a>, sought: &Sought) -> Option<&'a Reply> {
    for _ in 0..calls.most() {
        match read_ask(calls, sought)? {
            AskEnd::Over(reply) => return Some(reply),
            AskEnd::Lodged(query) => return read_end(calls, query),
            AskEnd::Offered(_) => {}
        }
    }
    None
}

/// A call that a lookup may make.
fn is_of_lookup(entry: &LabEntry, sought: &Sought) -> bool {
    asks_for(&entry.event, sought) || is_of_job(&entry.event) || collected(&entry.event).is_some()
}

/// Reads all calls that are left: whether a lookup may make each of them.
pub fn read_stopped(calls: &mut SeatCalls<'_>, sought: &Sought) -> bool {
    for _ in 0..calls.most() {
        match calls.next() {
            Some(call) if is_of_lookup(call.entry, sought) => {}
            Some(_) => return false,
            None => return true,
        }
    }
    calls.next().is_none()
}

fn same_matches(a: &[Option<(InstId, u64)>], b: &[Option<(InstId, u64)>]) -> bool {
    a == b
}

/// Whether a lookup that ended with the reply ended so.
pub fn ended_so(end: &LookEnd, reply: &Reply) -> bool {
    match (end, reply) {
        (LookEnd::Found(a), Reply::Found(_, b)) => same_matches(a.as_slice(), b.as_slice()),
        (LookEnd::Failed(i), Reply::Lost(_, j)) => i == j,
        (LookEnd::InError(i), Reply::InError(j)) => i == j,
        (LookEnd::Missing(name), Reply::Missing(other)) => name == other,
        (LookEnd::NoDylib(d), Reply::NoDylib(other)) => d == other,
        _ => false,
    }
}
