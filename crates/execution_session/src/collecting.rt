//! Ends of queries that are collected.

ghost use Rattle.std.specs.Prelude.{◌≡◌, ◌≢◌, None, Some, false, slice_get, IfOk, OnErr};
ghost use Rattle.query_book.specs.Ends.{collected_of};
ghost use Rattle.execution_session.specs.Collected.{end_reply, is_open};
ghost use Rattle.session_steps.specs.Performs.{Collects};
ghost use Rattle.session_steps.specs.Rest.{Rests};

use crate::entering::enter_silently;
use crate::places::check_places;
use crate::session::Session;
use orc_ids::{QueryId, SeatNo, Stop};
use orc_io::Notify;
use query_book::{Book, Collected};
use session_model::{Entry, Event, Reply, UnitKind};
use session_steps::Live;
use std::alloc::AllocError;

/// What is known of a query's end, as a reply.
fn end_reply(q: QueryId, collected: Collected) -> Reply
    ensures { result ≡ end_reply q collected }
{
    match collected {
        Collected::Unknown => Reply::Unknown(q),
        Collected::Open => Reply::Open,
        Collected::Failed(at, i) => Reply::Lost(at, i),
        Collected::Found(at, list) => Reply::Found(at, list),
    }
}

/// The reply of a collect. Only that of a query that has ended takes memory.
fn collect_end<N: Notify>(book: &Book<N>, q: QueryId) -> Result<Reply, AllocError>
    ensures end { IfOk result (λ r. r ≡ end_reply q (collected_of (slice_get book.now.ends q.0))) }
    ensures ended { OnErr result (slice_get book.now.ends q.0 ≢ Some None) }
{
    Ok(end_reply(q, book.collect(q)?))
}

/// Whether the query hasn't settled.
fn is_open(reply: &Reply) -> bool
    ensures { result ≡ is_open reply.now }
{
    matches!(reply, Reply::Open)
}

/// A collect of a query that has ended, or isn't there, is entered with this reply.
fn enter_end<U: UnitKind, N: Notify, const JMAX: usize>(
    live: &mut Live<U, N>,
    s: SeatNo,
    q: QueryId,
    reply: Reply,
) -> Result<Reply, Stop>
    requires rest { Rests U.meaning JMAX live.old }
    requires end { reply ≡ end_reply q (collected_of (slice_get live.old.parts.book.ends q.0)) }
    requires settled { is_open reply ≡ false }
    ensures rest { Rests U.meaning JMAX live.new }
    ensures collects { Collects U.meaning JMAX live.old.journal.items live.new.journal.items s q result }
    ensures armed { live.new.parts.book.armed ≡ live.old.parts.book.armed }
{
    check_places::<U, N, JMAX>(live, 1)?;
    let Ok(copy) = collect_end(&live.parts.book, q) else {
        return Err(Stop::NoMemory);
    };
    enter_silently::<U, N, JMAX>(
        live,
        Entry {
            seat: s,
            event: Event::Collect(q),
            reply: copy,
        },
    );
    Ok(reply)
}

impl<U: UnitKind, N: Notify, const JMAX: usize> Session<U, N, JMAX> {
    /// The end of a query, where it has settled. One that is open takes no entry, and no memory (ORC: the
    /// result of an `AsynchronousSymbolQuery`).
    pub fn collect(&mut self, s: SeatNo, q: QueryId) -> Result<Reply, Stop>
        ensures performs { Collects U.meaning JMAX self.old.journal self.new.journal s q result }
        ensures armed { self.new.armed ≡ self.old.armed }
    {
        let Ok(reply) = collect_end(&self.live.parts.book, q) else {
            return Err(Stop::NoMemory);
        };
        if is_open(&reply) {
            return Ok(reply);
        }
        enter_end::<U, N, JMAX>(&mut self.live, s, q, reply)
    }
}
