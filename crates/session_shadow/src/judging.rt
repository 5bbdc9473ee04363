//! Answers, judged by the plain session and by what the journal has gained.

ghost use Rattle.std.specs.Prelude.{◌≤◌};
ghost use Rattle.session_shadow.specs.Follows.{IsShadow};

use crate::shadow::Shadow;
use orc_ids::{SeatNo, Stop};
use session_check::KnownUnit;
use session_model::{Entry, Reply, same_reply};
use session_past::held_count;
use session_player::Call;

/// What a call asks of the journal, and of the session where it makes no entry.
#[derive(Clone, Copy)]
pub enum Asks {
    /// The end of this query.
    End(u32),
    /// The oldest job.
    Job,
    /// A fail of this unit.
    Fail(u32),
    Other,
}

pub fn asked(call: &Call<KnownUnit>) -> Asks {
    match call {
        Call::Collect(q) => Asks::End(q.0),
        Call::Take => Asks::Job,
        Call::Fail(u, _) => Asks::Fail(u.0),
        _ => Asks::Other,
    }
}

/// The seat holds the unit.
fn holds(shadow: &Shadow, s: SeatNo, u: u32) -> bool {
    match shadow.plain.units.get(u as usize) {
        Some(x) => x.seat == Some(s.0),
        None => false,
    }
}

/// How many places an answer with an entry takes.
fn places(shadow: &Shadow, s: SeatNo, asks: Asks) -> usize
    ensures { result ≤ 2 }
{
    match asks {
        Asks::Job => 2,
        Asks::Fail(u) if holds(shadow, s, u) => 0,
        _ => 1,
    }
}

/// The query is there and open.
fn is_open(shadow: &Shadow, q: u32) -> bool {
    matches!(shadow.ends.get(q as usize), Some(None))
}

/// Whether the call makes no entry, whatever places the journal has.
fn is_silent(shadow: &Shadow, asks: Asks) -> bool {
    match asks {
        Asks::End(q) => is_open(shadow, q),
        Asks::Job => shadow.plain.jobs.as_slice().is_empty(),
        _ => false,
    }
}

/// The journal has no places for the call.
fn is_full(jmax: usize, shadow: &Shadow, s: SeatNo, asks: Asks) -> bool
    requires { IsShadow shadow.now }
{
    shadow.suits();
    shadow.seen + held_count(&shadow.plain) + places(shadow, s, asks) > jmax
}

/// Whether an answer without an entry may come to a call that makes none.
fn is_right_silently(shadow: &Shadow, asks: Asks, answer: &Result<Reply, Stop>) -> bool {
    match (asks, answer) {
        (Asks::End(_), Ok(Reply::Open)) => true,
        (Asks::Job, Ok(Reply::Idle(count))) => *count as usize == held_count(&shadow.plain),
        _ => false,
    }
}

/// Whether a call that makes an entry, where there are places for it or not, may be answered so.
fn is_right_aloud(full: bool, seen: usize, answer: &Result<Reply, Stop>) -> bool {
    match answer {
        Ok(Reply::Open) | Ok(Reply::Idle(_)) => false,
        Ok(_) => !full,
        Err(Stop::JournalFull(len)) => full && *len == seen as u64,
        Err(Stop::NoMemory) => true,
    }
}

/// Whether the answer is of a kind that may come now; its entry is judged by itself.
pub fn may_come(
    jmax: usize,
    shadow: &Shadow,
    s: SeatNo,
    asks: Asks,
    answer: &Result<Reply, Stop>,
) -> bool
    requires { IsShadow shadow.now }
{
    if is_silent(shadow, asks) {
        is_right_silently(shadow, asks, answer)
    } else {
        is_right_aloud(is_full(jmax, shadow, s, asks), shadow.seen, answer)
    }
}

/// The one entry that the journal has gained is of this seat, and has this reply.
fn has_gained(journal: &[Entry<KnownUnit>], seen: usize, s: SeatNo, reply: &Reply) -> bool {
    match journal.get(seen) {
        Some(e) => journal.len() - seen == 1 && e.seat.0 == s.0 && same_reply(&e.reply, reply),
        None => false,
    }
}

/// Whether the journal has gained the answer's entry, or none where the answer has none.
pub fn is_entered(
    journal: &[Entry<KnownUnit>],
    seen: usize,
    s: SeatNo,
    answer: &Result<Reply, Stop>,
) -> bool {
    match answer {
        Ok(Reply::Open) | Ok(Reply::Idle(_)) | Err(_) => journal.len() == seen,
        Ok(reply) => has_gained(journal, seen, s, reply),
    }
}
