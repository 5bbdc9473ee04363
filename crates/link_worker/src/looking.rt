//! A lookup: names are asked for, and jobs are done until the query has its end.
ghost use Rattle.std.specs.Prelude.{◌≡◌, ◌≤◌, ℕ, length};
ghost use Rattle.orc_ids.specs.declared.limits.TheConstants.{ORDER_LIMIT, WANTED_LIMIT};
ghost use Rattle.turn_lock.specs.Handles.{view, turn_id, IsReady};
ghost use Rattle.link_worker.specs.Looks.{HasAwaited, HasLooked, HasSettled, IsAsked, IsLodgedBy, end_in, end_stopped, lookup_of, offered_in};
ghost use Rattle.link_worker.specs.Works.{IsFree};

use crate::unit::LinkedUnit;
use crate::work::{Worked, work_one};
use execution_session::Asked;
use notifiers::{Armed, FiredList};
use orc_ids::{GenId, Level, OrderItem, QueryId, Stop, Wanted};
use orc_io::{Gate, Notify};
use session_model::{LookEnd, Reply};
use shared_session::{Ask, Collect, Generate, Pass, Shared};
use std::alloc::Global;
use std::sync::Wait;
use std::thread;

/// What came of a lookup, with its notifier where no query was lodged for it.
pub struct Looked<N: Notify> {
    pub end: LookEnd,
    pub back: Option<Armed<N>>,
}

/// The end of a lookup of which a call was stopped.
fn end_stopped(stop: Stop) -> LookEnd
    ensures { result ≡ end_stopped stop }
{
    match stop {
        Stop::JournalFull(len) => LookEnd::JournalFull(len),
        Stop::NoMemory => LookEnd::NoMemory,
    }
}

/// The end that a collect was answered with, or none while the query is open.
fn end_in(reply: Reply) -> Option<LookEnd>
    ensures { result ≡ end_in reply }
{
    match reply {
        Reply::Found(_, matches) => Some(LookEnd::Found(matches)),
        Reply::Lost(_, i) => Some(LookEnd::Failed(i)),
        _ => None,
    }
}

/// The generator that an ask was offered.
fn offered_in(reply: &Reply) -> Option<GenId>
    ensures { result ≡ offered_in reply.now }
{
    match reply {
        Reply::Offer(generator) => Some(*generator),
        _ => None,
    }
}

/// Does jobs until the query has its end, and takes that.
fn await_end<U: LinkedUnit, N: Notify, G: Gate, R: Wait, const JMAX: usize>(
    rt: &R,
    alloc: Global,
    shared: &Shared<U, N, JMAX>,
    pass: &mut Pass<U, N, JMAX>,
    gate: &G,
    query: QueryId,
    fired: &mut FiredList<N>,
) -> LookEnd
    requires ready { IsReady (turn_id shared.now) pass.old }
    requires free { IsFree U.meaning (view pass.old) }
    requires lodged { (n : ℕ) × IsLodgedBy U.meaning (view pass.old) query n }
    ensures ready { IsReady (turn_id shared.now) pass.new }
    ensures free { IsFree U.meaning (view pass.new) }
    ensures awaited { (n : ℕ) → IsLodgedBy U.meaning (view pass.old) query n → HasAwaited U.meaning N.heard JMAX (view pass.old) (view pass.new) fired.old fired.new query n result }
{
    for _ in rt.forever() {
        match shared.perform(rt, pass, Collect { query }) {
            Ok(reply) => {
                if let Some(end) = end_in(reply) {
                    return end;
                }
            }
            Err(stop) => return end_stopped(stop),
        }
        match work_one(rt, alloc, shared, pass, gate, fired) {
            Worked::Did => {}
            Worked::Idle => thread::yield_now(),
            Worked::JournalFull(len) => return LookEnd::JournalFull(len),
            Worked::NoMemory => return LookEnd::NoMemory,
        }
    }
    unreachable!()
}

/// Goes on after an ask that was answered so.
fn settle<U: LinkedUnit, N: Notify, G: Gate, R: Wait, const JMAX: usize>(
    rt: &R,
    alloc: Global,
    shared: &Shared<U, N, JMAX>,
    pass: &mut Pass<U, N, JMAX>,
    gate: &G,
    reply: Reply,
    fired: &mut FiredList<N>,
) -> LookEnd
    requires ready { IsReady (turn_id shared.now) pass.old }
    requires free { IsFree U.meaning (view pass.old) }
    requires asked { IsAsked U.meaning (view pass.old) reply }
    ensures ready { IsReady (turn_id shared.now) pass.new }
    ensures free { IsFree U.meaning (view pass.new) }
    ensures settled { HasSettled U.meaning N.heard JMAX (view pass.old) (view pass.new) fired.old fired.new reply result }
{
    match reply {
        Reply::Done(query) => await_end(rt, alloc, shared, pass, gate, query, fired),
        Reply::Pending(query) => await_end(rt, alloc, shared, pass, gate, query, fired),
        Reply::InError(i) => LookEnd::InError(i),
        Reply::Missing(name) => LookEnd::Missing(name),
        Reply::NoDylib(d) => LookEnd::NoDylib(d),
        _ => unreachable!(),
    }
}

/// Looks names up in an order, until they have come to a level: uses each generator that they are
/// offered, and does jobs until their query has its end. `then` is told that end, if a query is lodged.
pub fn lookup<U: LinkedUnit, N: Notify, G: Gate, R: Wait, const JMAX: usize>(
    rt: &R,
    alloc: Global,
    shared: &Shared<U, N, JMAX>,
    pass: &mut Pass<U, N, JMAX>,
    order: &[OrderItem],
    wanted: &[Wanted],
    level: Level,
    then: Option<Armed<N>>,
    gate: &G,
    fired: &mut FiredList<N>,
) -> Looked<N>
    requires ready { IsReady (turn_id shared.now) pass.old }
    requires free { IsFree U.meaning (view pass.old) }
    requires order { length order.now ≤ ORDER_LIMIT }
    requires wanted { length wanted.now ≤ WANTED_LIMIT }
    ensures ready { IsReady (turn_id shared.now) pass.new }
    ensures free { IsFree U.meaning (view pass.new) }
    ensures looked { HasLooked U.meaning N.heard JMAX (view pass.old) (view pass.new) fired.old fired.new (lookup_of order.now wanted.now level then) then result.end result.back }
{
    let mut then = then;
    for _ in rt.forever() {
        let ask = Ask {
            order,
            wanted,
            level,
            then,
        };
        let Asked {
            answer,
            back,
            fires,
        } = shared.perform(rt, pass, ask);
        fires.fire_all(fired);
        match answer {
            Ok(reply) => match offered_in(&reply) {
                Some(generator) => {
                    if let Err(stop) = shared.perform(rt, pass, Generate { generator }) {
                        let end = end_stopped(stop);
                        return Looked { end, back };
                    }
                    then = back;
                }
                None => {
                    let end = settle(rt, alloc, shared, pass, gate, reply, fired);
                    return Looked { end, back };
                }
            },
            Err(stop) => {
                let end = end_stopped(stop);
                return Looked { end, back };
            }
        }
    }
    unreachable!()
}
