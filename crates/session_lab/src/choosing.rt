//! Random calls, and the seats that make them.

use crate::random::Random;
use crate::units::{DYLIBS, dylib, name, unit};
use orc_ids::{
    Bytes, DylibId, GenId, InstId, Items, Level, NameId, OrderItem, Place, QueryId, Scope, SeatNo,
    Shape, TrackId, UnitId, Wanted,
};
use session_check::KnownUnit;
use session_model::{Entry, Event, Finishing, Reply, UnitKind, UnitPhase, Why};
use session_plain::PlainUnit;
use session_player::{Call, SeatCall};
use session_shadow::Shadow;
use std::alloc::{AllocError, Global};

/// How many seats make calls.
const SEATS: u32 = 3;

/// A shape that stands for the unit's own.
const OWN: Shape = Shape { need: 1, align: 1 };

/// A number of so many things, or one that is past them.
fn number(random: &mut Random, len: usize) -> u32 {
    let len = u32::try_from(len).unwrap_or(u32::MAX);
    random.below(len.saturating_add(1))
}

/// A dylib, which may not exist.
fn any_dylib(random: &mut Random) -> DylibId {
    DylibId(random.below(DYLIBS + 1))
}

fn tracker(random: &mut Random, shadow: &Shadow) -> TrackId {
    TrackId(number(random, shadow.plain.trackers.as_slice().len()))
}

fn any_unit(random: &mut Random, shadow: &Shadow) -> UnitId {
    UnitId(number(random, shadow.plain.units.as_slice().len()))
}

/// One of three orders of a dylib: all of it, its exported names, or that and another dylib.
fn order(alloc: Global, random: &mut Random, d: DylibId) -> Result<Vec<OrderItem>, AllocError> {
    let scope = if random.once_in(3) {
        Scope::Exported
    } else {
        Scope::All
    };
    let mut order = vec![in alloc; OrderItem { dylib: d, scope }]?;
    if random.once_in(3) {
        order.push(OrderItem {
            dylib: dylib(random),
            scope: Scope::Exported,
        })?;
    }
    Ok(order)
}

/// An instance's home and name, or any.
fn known_name(random: &mut Random, shadow: &Shadow) -> (DylibId, NameId) {
    let i = number(random, shadow.plain.rows.as_slice().len());
    match shadow.plain.rows.get(i as usize) {
        Some(row) => (row.dylib, row.name),
        None => (any_dylib(random), name(random)),
    }
}

/// A name, and up to two others.
fn wanted(alloc: Global, random: &mut Random, first: NameId) -> Result<Vec<Wanted>, AllocError> {
    let weak = random.once_in(6);
    let mut wanted = vec![in alloc; Wanted { name: first, weak }]?;
    for _ in 0..random.below(3) {
        wanted.push(Wanted {
            name: name(random),
            weak: random.once_in(2),
        })?;
    }
    Ok(wanted)
}

fn ask(alloc: Global, random: &mut Random, shadow: &Shadow) -> Result<Call<KnownUnit>, AllocError> {
    let (d, first) = known_name(random, shadow);
    let order = Items::from_vec(order(alloc, random, d)?);
    let wanted = Items::from_vec(wanted(alloc, random, first)?);
    let level = if random.once_in(3) {
        Level::Resolved
    } else {
        Level::Ready
    };
    Ok(Call::Ask(order, wanted, level))
}

fn set_order(alloc: Global, random: &mut Random) -> Result<Call<KnownUnit>, AllocError> {
    let d = any_dylib(random);
    let first = dylib(random);
    Ok(Call::SetOrder(d, Items::from_vec(order(alloc, random, first)?)))
}

/// A tracker with its dylib, mostly.
fn home(random: &mut Random, shadow: &Shadow) -> (DylibId, TrackId) {
    let t = tracker(random, shadow);
    let d = match shadow.plain.trackers.get(t.0 as usize) {
        Some(track) => DylibId(track.dylib),
        None => any_dylib(random),
    };
    if random.once_in(12) {
        (any_dylib(random), t)
    } else {
        (d, t)
    }
}

/// A definition, or a generator.
fn hand_in(
    alloc: Global,
    random: &mut Random,
    shadow: &Shadow,
    defines: bool,
) -> Result<Call<KnownUnit>, AllocError> {
    let (d, t) = home(random, shadow);
    Ok(match unit(alloc, random)? {
        None => Call::Take,
        Some(unit) => {
            if defines {
                Call::Define(d, t, unit)
            } else {
                Call::Attach(d, t, unit)
            }
        }
    })
}

/// A cause that this entry gives a fail of the unit.
fn cause_in(e: &Entry<KnownUnit>, u: UnitId) -> Option<Why> {
    match (&e.event, &e.reply) {
        (Event::Link(v), Reply::Missing(name)) if v.0 == u.0 => Some(Why::Missing(*name)),
        (Event::Link(v), Reply::InError(i)) if v.0 == u.0 => Some(Why::InError(*i)),
        (Event::Link(v), Reply::AliasCycle(i)) if v.0 == u.0 => Some(Why::AliasCycle(*i)),
        (Event::Emit(v, _), Reply::BadDep(i)) if v.0 == u.0 => Some(Why::BadDep(*i)),
        (Event::Place(v, _), Reply::NoRoom(need)) if v.0 == u.0 => Some(Why::NoRoom(*need)),
        (Event::Take, Reply::Finish(v, Finishing::Lost(i))) if v.0 == u.0 => Some(Why::InError(*i)),
        _ => None,
    }
}

/// The last such cause.
fn last_cause(journal: &[Entry<KnownUnit>], u: UnitId) -> Option<Why> {
    for e in journal.iter().rev() {
        let cause = cause_in(e, u);
        if cause.is_some() {
            return cause;
        }
    }
    None
}

/// A cause to give the unit up for, which need not be there.
fn why(random: &mut Random, journal: &[Entry<KnownUnit>], u: UnitId) -> Why {
    match random.below(6) {
        0 => Why::NoMemory,
        1 => Why::Full,
        2 => Why::Refused(
            Place {
                block: 0,
                offset: 4,
            },
            17,
            1_048_576,
        ),
        _ => last_cause(journal, u).unwrap_or(Why::InError(InstId(0))),
    }
}

fn fail(random: &mut Random, journal: &[Entry<KnownUnit>], u: UnitId) -> Call<KnownUnit> {
    Call::Fail(u, why(random, journal, u))
}

fn emit(alloc: Global, u: UnitId) -> Call<KnownUnit> {
    Call::Emit(u, Items::new(alloc), Bytes::new(alloc))
}

/// Any call on the unit.
fn on_unit(
    alloc: Global,
    random: &mut Random,
    journal: &[Entry<KnownUnit>],
    u: UnitId,
) -> Call<KnownUnit> {
    match random.below(5) {
        0 => Call::Place(u, OWN),
        1 => Call::Resolve(u),
        2 => Call::Link(u),
        3 => emit(alloc, u),
        _ => fail(random, journal, u),
    }
}

/// The next call on a unit, as its holder makes it.
fn next_on(
    alloc: Global,
    random: &mut Random,
    journal: &[Entry<KnownUnit>],
    u: UnitId,
    x: &PlainUnit<KnownUnit>,
) -> Call<KnownUnit> {
    let is_alias = x.unit.source().is_some();
    if random.once_in(5) {
        return fail(random, journal, u);
    }
    match x.phase {
        UnitPhase::Started if is_alias => Call::Link(u),
        UnitPhase::Started => {
            if random.once_in(2) {
                Call::Place(u, OWN)
            } else {
                Call::Resolve(u)
            }
        }
        UnitPhase::Placed => Call::Resolve(u),
        UnitPhase::Linking => Call::Link(u),
        UnitPhase::Finishing if is_alias && x.base.is_none() => Call::Resolve(u),
        UnitPhase::Finishing if x.bound.is_none() => fail(random, journal, u),
        UnitPhase::Finishing => emit(alloc, u),
        _ => on_unit(alloc, random, journal, u),
    }
}

/// The number of a unit that is held.
fn held_unit(random: &mut Random, shadow: &Shadow) -> Option<u32> {
    let mut found = None;
    let mut count: u32 = 0;
    for (u, x) in shadow.plain.units.iter().enumerate() {
        if x.seat.is_some() {
            count = count.saturating_add(1);
            if random.once_in(count) {
                found = u32::try_from(u).ok();
            }
        }
    }
    found
}

/// The next call of a holder, mostly.
fn work(
    alloc: Global,
    random: &mut Random,
    shadow: &Shadow,
    journal: &[Entry<KnownUnit>],
) -> Option<SeatCall<KnownUnit>> {
    let u = held_unit(random, shadow)?;
    let x = shadow.plain.units.get(u as usize)?;
    let call = if random.once_in(8) {
        on_unit(alloc, random, journal, UnitId(u))
    } else {
        next_on(alloc, random, journal, UnitId(u), x)
    };
    Some(SeatCall {
        seat: SeatNo(x.seat?),
        call,
    })
}

/// Any call.
fn any(
    alloc: Global,
    random: &mut Random,
    shadow: &Shadow,
    journal: &[Entry<KnownUnit>],
) -> Result<Call<KnownUnit>, AllocError> {
    Ok(match random.below(32) {
        0 => Call::Dylib(name(random)),
        1 => set_order(alloc, random)?,
        2..=4 => hand_in(alloc, random, shadow, false)?,
        5..=10 => hand_in(alloc, random, shadow, true)?,
        11..=12 => Call::Generate(GenId(number(random, shadow.plain.generators.as_slice().len()))),
        13..=18 => ask(alloc, random, shadow)?,
        19..=21 => Call::Collect(QueryId(number(random, shadow.plain.queries.as_slice().len()))),
        22..=23 => Call::Take,
        24..=26 => {
            let u = any_unit(random, shadow);
            on_unit(alloc, random, journal, u)
        }
        27..=28 => Call::Tracker(any_dylib(random)),
        29 => Call::MoveTracker(tracker(random, shadow), tracker(random, shadow)),
        30 => Call::Remove(tracker(random, shadow)),
        _ => Call::Image,
    })
}

/// Any call of any seat.
fn choose_any(
    alloc: Global,
    random: &mut Random,
    shadow: &Shadow,
    journal: &[Entry<KnownUnit>],
) -> Result<SeatCall<KnownUnit>, AllocError> {
    let call = any(alloc, random, shadow, journal)?;
    Ok(SeatCall {
        seat: SeatNo(random.below(SEATS)),
        call,
    })
}

/// A random call: of a holder on its unit or a take, as long as there is work, or any.
pub fn choose(
    alloc: Global,
    random: &mut Random,
    shadow: &Shadow,
    journal: &[Entry<KnownUnit>],
) -> Result<SeatCall<KnownUnit>, AllocError> {
    if random.once_in(6) && !shadow.plain.jobs.as_slice().is_empty() {
        return Ok(SeatCall {
            seat: SeatNo(random.below(SEATS)),
            call: Call::Take,
        });
    }
    if random.once_in(2) {
        if let Some(call) = work(alloc, random, shadow, journal) {
            return Ok(call);
        }
    }
    choose_any(alloc, random, shadow, journal)
}
