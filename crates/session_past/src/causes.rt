ghost use Rattle.std.specs.Prelude.{◌≡◌, ◌↔◌, ℕ, ◌+◌, ◌⊎◌, true, length, Option, Some, None, IsTrue, slice_get, unwrap_or, option_and_then};
ghost use Rattle.session_model.specs.Answer.{HasCause, LinkEnded, is_turned_away, is_stage, last_reply};
ghost use Rattle.session_model.specs.Meaning.{Bindings};
ghost use Rattle.session_model.specs.Plain.{kept};
ghost use Rattle.session_model.specs.State.{plain_entry, plain_event, plain_history, state};
ghost use Rattle.session_model.specs.declared.entry.Reply.{Reply};
ghost use Rattle.session_model.specs.declared.rows.Ending.TheVariants.{Lost};
ghost use Rattle.session_model.specs.declared.rows.UnitPhase.TheVariants as stage;
ghost use Rattle.session_past.specs.Causes.{is_call_of, last_of};
ghost use Rattle.session_past.specs.Ends.{AreEnds};
ghost use Rattle.session_plain.specs.Meant.{meant, unit_row};
ghost use Rattle.session_past.specs.Taking.{end_at, link_end};

use crate::ends::Settled;
use crate::taking::{held_count, link_query};
use orc_ids::{InstId, Place, UnitId};
use session_model::{Ending, Entry, Event, Reply, UnitKind, Why, same_reply};
use session_plain::{PlainSession, PlainUnit, is_finishing};

/// A call on a unit that a fail may have its cause in.
#[derive(Clone, Copy, Debug, PartialEq, Eq)]
pub enum Call {
    Link,
    Emit,
    Place,
}

fn is_call<U: UnitKind>(event: &Event<U>, call: Call, u: UnitId) -> bool
    ensures { result ≡ is_call_of call u.0 (plain_event U.meaning event.now) }
{
    match event {
        Event::Link(v) => matches!(call, Call::Link) && v.0 == u.0,
        Event::Emit(v, _) => matches!(call, Call::Emit) && v.0 == u.0,
        Event::Place(v, _) => matches!(call, Call::Place) && v.0 == u.0,
        _ => false,
    }
}

fn turned_off(reply: &Reply) -> bool
    ensures { result ≡ is_turned_away reply.now }
{
    matches!(reply, Reply::Defunct(_) | Reply::WrongPhase(_))
}

/// Whether the last answer is this reply, where it was up to the entry or wasn't.
fn still_last<U: UnitKind>(e: &Entry<U>, call: Call, u: UnitId, reply: &Reply, was: bool) -> bool
    ensures { (found : Option Reply) → IsTrue was ↔ (found ≡ Some reply.now) → IsTrue result ↔ (last_of (is_call_of call u.0) found (plain_entry U.meaning e.now) ≡ Some reply.now) }
{
    if is_call(&e.event, call, u) && !turned_off(&e.reply) {
        same_reply(&e.reply, reply)
    } else {
        was
    }
}

/// Whether the last such call on the unit was answered so, Defunct and WrongPhase aside.
fn was_last<U: UnitKind>(past: &[Entry<U>], call: Call, u: UnitId, reply: &Reply) -> bool
    ensures { IsTrue result ↔ (last_reply (is_call_of call u.0) (plain_history U.meaning past.now) ≡ Some reply.now) }
{
    let mut was = false;
    for e in past {
        was = still_last(e, call, u, reply, was);
    }
    was
}

fn lost_at(ends: &[Option<Settled>], k: u32, i: InstId) -> bool
    ensures { IsTrue result ↔ (end_at ends.now k ≡ Some (Lost i)) }
{
    match ends.get(k as usize) {
        Some(Some(settled)) => match &settled.end {
            Ending::Lost(j) => j.0 == i.0,
            Ending::Found(_) => false,
        },
        _ => false,
    }
}

/// Whether the link query of the unit ended since this instance was lost.
fn link_lost<U: UnitKind>(
    s: &PlainSession<U>,
    ends: &[Option<Settled>],
    u: UnitId,
    i: InstId,
) -> bool
    ensures { IsTrue result ↔ (link_end (meant U.meaning s.now) ends.now u.0 ≡ Some (Lost i)) }
{
    match link_query(s, u) {
        Some(k) => lost_at(ends, k, i),
        None => false,
    }
}

fn is_refused(refusal: Option<(Place, u32, i64)>, place: Place, kind: u32, value: i64) -> bool
    ensures { IsTrue result ↔ (refusal ≡ Some (place, kind, value)) }
{
    match refusal {
        Some((at, which, v)) => {
            at.block == place.block && at.offset == place.offset && which == kind && v == value
        }
        None => false,
    }
}

/// Whether the entries and the held units take all places of the journal.
fn is_full<U: UnitKind>(jmax: u64, past: &[Entry<U>], s: &PlainSession<U>) -> bool
    ensures { IsTrue result ↔ (length (plain_history U.meaning past.now) + kept (meant U.meaning s.now) ≡ jmax) }
{
    past.len() as u128 + held_count(s) as u128 == jmax as u128
}

fn ended_lost<U: UnitKind>(
    s: &PlainSession<U>,
    ends: &[Option<Settled>],
    u: UnitId,
    x: &PlainUnit<U>,
    i: InstId,
) -> bool
    ensures { IsTrue result ↔ (is_stage stage.Finishing x.now.phase ≡ true) × (x.now.bound ≡ None) × (link_end (meant U.meaning s.now) ends.now u.0 ≡ Some (Lost i)) }
{
    is_finishing(x.phase) && x.bound.is_none() && link_lost(s, ends, u, i)
}

fn linked_in_error<U: UnitKind>(past: &[Entry<U>], u: UnitId, i: InstId) -> bool
    ensures { IsTrue result ↔ (last_reply (is_call_of Call.Link u.0) (plain_history U.meaning past.now) ≡ Some (Reply.InError i)) }
{
    was_last(past, Call::Link, u, &Reply::InError(i))
}

/// Whether an external of the unit failed: its last link was answered so, or its link query ended so.
fn external_failed<U: UnitKind>(
    past: &[Entry<U>],
    s: &PlainSession<U>,
    ends: &[Option<Settled>],
    u: UnitId,
    x: &PlainUnit<U>,
    i: InstId,
) -> bool
    requires leads { meant U.meaning s.now ≡ state (plain_history U.meaning past.now) }
    requires ends { AreEnds (plain_history U.meaning past.now) (meant U.meaning s.now) ends.now }
    ensures { IsTrue result ↔ (last_reply (is_call_of Call.Link u.0) (plain_history U.meaning past.now) ≡ Some (Reply.InError i)) ⊎ ((is_stage stage.Finishing x.now.phase ≡ true) × (x.now.bound ≡ None) × LinkEnded (plain_history U.meaning past.now) (meant U.meaning s.now) u.0 (Lost i)) }
{
    if linked_in_error(past, u, i) {
        return true;
    }
    ended_lost(s, ends, u, x, i)
}

/// Whether the unit may be given up for this cause. The refusal is that of the unit where it is
/// placed, with its bindings if it has some.
pub fn has_cause<U: UnitKind>(
    jmax: u64,
    past: &[Entry<U>],
    s: &PlainSession<U>,
    ends: &[Option<Settled>],
    u: UnitId,
    x: &PlainUnit<U>,
    refusal: Option<(Place, u32, i64)>,
    why: Why,
) -> bool
    requires leads { meant U.meaning s.now ≡ state (plain_history U.meaning past.now) }
    requires ends { AreEnds (plain_history U.meaning past.now) (meant U.meaning s.now) ends.now }
    requires refusal { (bound : Bindings) → x.now.bound ≡ Some bound → (U.meaning x.now.unit).refusal x.now.live (unwrap_or x.now.base 0) bound ≡ refusal }
    ensures { IsTrue result ↔ HasCause jmax (plain_history U.meaning past.now) (meant U.meaning s.now) u.0 (unit_row U.meaning x.now) why }
{
    match why {
        Why::Refused(place, kind, value) => {
            is_finishing(x.phase) && x.bound.is_some() && is_refused(refusal, place, kind, value)
        }
        Why::Missing(name) => was_last(past, Call::Link, u, &Reply::Missing(name)),
        Why::AliasCycle(i) => was_last(past, Call::Link, u, &Reply::AliasCycle(i)),
        Why::InError(i) => external_failed(past, s, ends, u, x, i),
        Why::BadDep(i) => was_last(past, Call::Emit, u, &Reply::BadDep(i)),
        Why::NoRoom(need) => was_last(past, Call::Place, u, &Reply::NoRoom(need)),
        Why::NoMemory => true,
        Why::Full => is_full(jmax, past, s),
    }
}
