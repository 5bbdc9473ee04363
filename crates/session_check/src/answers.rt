ghost use Rattle.std.specs.Prelude.{◌≡◌, ◌≤◌, ◌↔◌, length, IsTrue, IfOk};
ghost use Rattle.session_model.specs.Answer.{Answers, AnswersCollect, AnswersTake, HasSource, answer_ask, answer_attach, answer_define, answer_generate, answer_set_order};
ghost use Rattle.session_model.specs.State.{plain_event, plain_history};
ghost use Rattle.session_check.specs.Replay.{LedTo};
ghost use Rattle.session_plain.specs.Meant.{meant, IsSmall, LiveFit};

use crate::calls::{emit_is_right, fail_is_right, link_is_right, place_is_right, resolve_is_right};
use crate::sample::Sample;
use orc_ids::{
    DylibId, GenId, Level, ORDER_LIMIT, OrderItem, QueryId, TrackId, WANTED_LIMIT, Wanted,
};
use session_model::{Entry, Event, Reply, UnitKind, same_reply};
use session_past::{Settled, reply_collect, reply_of_job};
use session_plain::{
    PlainSession, reply_ask, reply_attach, reply_define, reply_dylib, reply_generate, reply_move,
    reply_remove, reply_set_order, reply_tracker, source_known,
};
use std::alloc::{AllocError, Global};

fn set_order_is_right<U: UnitKind>(
    s: &PlainSession<U>,
    d: DylibId,
    order: &[OrderItem],
    reply: &Reply,
) -> bool
    ensures { IsTrue result ↔ (length order.now ≤ ORDER_LIMIT) × (reply.now ≡ answer_set_order (meant U.meaning s.now) d order.now) }
{
    order.len() <= ORDER_LIMIT && same_reply(reply, &reply_set_order(s, d, order))
}

fn attach_is_right<U: UnitKind>(
    s: &PlainSession<U>,
    d: DylibId,
    t: TrackId,
    unit: &U,
    reply: &Reply,
) -> bool
    requires { IsSmall s.now }
    ensures { IsTrue result ↔ HasSource (meant U.meaning s.now) (U.meaning unit.now) × (reply.now ≡ answer_attach (meant U.meaning s.now) d t) }
{
    source_known(s, unit) && same_reply(reply, &reply_attach(s, d, t))
}

fn define_is_right<U: UnitKind>(
    alloc: Global,
    s: &PlainSession<U>,
    d: DylibId,
    t: TrackId,
    unit: &U,
    reply: &Reply,
) -> Result<bool, AllocError>
    requires { IsSmall s.now }
    ensures { IfOk result (λ right. IsTrue right ↔ HasSource (meant U.meaning s.now) (U.meaning unit.now) × (reply.now ≡ answer_define (meant U.meaning s.now) d t (U.meaning unit.now))) }
{
    let known = reply_define(alloc, s, d, t, unit)?;
    Ok(source_known(s, unit) && same_reply(reply, &known))
}

fn generate_is_right<U: UnitKind>(
    alloc: Global,
    s: &PlainSession<U>,
    g: GenId,
    reply: &Reply,
) -> Result<bool, AllocError>
    requires { IsSmall s.now }
    ensures { IfOk result (λ right. IsTrue right ↔ (reply.now ≡ answer_generate (meant U.meaning s.now) g)) }
{
    Ok(same_reply(reply, &reply_generate(alloc, s, g)?))
}

fn ask_is_right<U: UnitKind>(
    alloc: Global,
    s: &PlainSession<U>,
    order: &[OrderItem],
    wanted: &[Wanted],
    level: Level,
    reply: &Reply,
) -> Result<bool, AllocError>
    requires { IsSmall s.now }
    ensures { IfOk result (λ right. IsTrue right ↔ (length order.now ≤ ORDER_LIMIT) × (length wanted.now ≤ WANTED_LIMIT) × (reply.now ≡ answer_ask (meant U.meaning s.now) order.now wanted.now level)) }
{
    let known = reply_ask(alloc, s, order, wanted, level)?;
    let fits = order.len() <= ORDER_LIMIT && wanted.len() <= WANTED_LIMIT;
    Ok(fits && same_reply(reply, &known))
}

fn is_open(reply: &Reply) -> bool
    ensures { IsTrue result ↔ (reply.now ≡ Reply.Open) }
{
    matches!(reply, Reply::Open)
}

/// Whether the query's end is collected so. Open makes no entry.
fn collect_is_right<U: UnitKind>(
    alloc: Global,
    past: &[Entry<U>],
    s: &PlainSession<U>,
    ends: &[Option<Settled>],
    q: QueryId,
    reply: &Reply,
) -> Result<bool, AllocError>
    requires { LedTo (plain_history U.meaning past.now) (meant U.meaning s.now) ends.now }
    ensures { IfOk result (λ right. IsTrue right ↔ AnswersCollect (plain_history U.meaning past.now) (meant U.meaning s.now) q.0 reply.now) }
{
    let known = reply_collect(alloc, s, ends, q)?;
    if is_open(&known) {
        return Ok(false);
    }
    Ok(same_reply(reply, &known))
}

/// Whether the oldest job is handed out so.
fn take_is_right<U: UnitKind>(
    alloc: Global,
    past: &[Entry<U>],
    s: &PlainSession<U>,
    ends: &[Option<Settled>],
    reply: &Reply,
) -> Result<bool, AllocError>
    requires { LedTo (plain_history U.meaning past.now) (meant U.meaning s.now) ends.now }
    ensures { IfOk result (λ right. IsTrue right ↔ AnswersTake (plain_history U.meaning past.now) (meant U.meaning s.now) (meant U.meaning s.now).jobs reply.now) }
{
    match reply_of_job(alloc, s, ends)? {
        Some(known) => Ok(same_reply(reply, &known)),
        None => Ok(false),
    }
}

/// Whether the entry's reply is a right one after the entries before it.
pub fn is_right<U: Sample>(
    alloc: Global,
    jmax: u64,
    past: &[Entry<U>],
    s: &PlainSession<U>,
    ends: &[Option<Settled>],
    e: &Entry<U>,
) -> Result<bool, AllocError>
    requires led { LedTo (plain_history U.meaning past.now) (meant U.meaning s.now) ends.now }
    requires small { IsSmall s.now }
    requires live { LiveFit U.meaning s.now.units.items }
    ensures { IfOk result (λ right. IsTrue right ↔ Answers jmax (plain_history U.meaning past.now) (meant U.meaning s.now) e.now.seat.0 (plain_event U.meaning e.now.event) e.now.reply) }
{
    let seat = e.seat;
    let reply = &e.reply;
    match &e.event {
        Event::Dylib(name) => Ok(same_reply(reply, &reply_dylib(s, *name))),
        Event::SetOrder(d, order) => Ok(set_order_is_right(s, *d, order.as_slice(), reply)),
        Event::Attach(d, t, unit) => Ok(attach_is_right(s, *d, *t, unit, reply)),
        Event::Define(d, t, unit) => define_is_right(alloc, s, *d, *t, unit, reply),
        Event::Generate(g) => generate_is_right(alloc, s, *g, reply),
        Event::Ask(order, wanted, level, _) => ask_is_right(
            alloc,
            s,
            order.as_slice(),
            wanted.as_slice(),
            *level,
            reply,
        ),
        Event::Collect(q) => collect_is_right(alloc, past, s, ends, *q, reply),
        Event::Take => take_is_right(alloc, past, s, ends, reply),
        Event::Place(u, shape) => place_is_right(alloc, s, seat, *u, *shape, reply),
        Event::Resolve(u) => Ok(resolve_is_right(s, seat, *u, reply)),
        Event::Emit(u, groups) => emit_is_right(alloc, s, seat, *u, groups.as_slice(), reply),
        Event::Fail(u, why) => Ok(fail_is_right(jmax, past, s, ends, seat, *u, *why, reply)),
        Event::Tracker(d) => Ok(same_reply(reply, &reply_tracker(s, *d))),
        Event::MoveTracker(t, to) => Ok(same_reply(reply, &reply_move(s, *t, *to))),
        Event::Remove(t) => Ok(same_reply(reply, &reply_remove(s, *t))),
        Event::Image => Ok(same_reply(reply, &Reply::Image)),
        Event::Link(u) => link_is_right(alloc, s, seat, *u, reply),
    }
}
