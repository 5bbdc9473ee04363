//! What is asked of a session, as plain data.

use super::named::Named;
use orc_ids::{
    DylibId, GenId, Group, Groups, InstId, Items, Level, NameId, OrderItem, QueryId, Shape,
    TrackId, UnitId, UnitName, Wanted,
};
use session_model::{Event, Why};
use std::alloc::{AllocError, Global};

/// The members of a group, and what they depend on.
pub(super) type GroupRow<'a> = (&'a [InstId], &'a [InstId]);

/// An event by its numbers and lists.
#[derive(Clone, Copy)]
pub(super) enum Said<'a> {
    Dylib(NameId),
    Order(u32, &'a [OrderItem]),
    Tracker(u32),
    Move(u32, u32),
    Remove(u32),
    Attach(u32, u32, UnitName),
    Define(u32, u32, UnitName),
    Generate(u32),
    Ask(&'a [OrderItem], &'a [Wanted], Level, Option<u32>),
    Collect(u32),
    Take,
    /// The unit, its bytes and their alignment.
    Place(u32, u64, u64),
    Resolve(u32),
    Link(u32),
    Emit(u32, &'a [GroupRow<'a>]),
    Fail(u32, Why),
    Image,
}

/// The event.
pub(super) fn event_of(alloc: Global, said: &Said) -> Result<Event<Named>, AllocError> {
    match said {
        Said::Dylib(name) => Ok(Event::Dylib(*name)),
        Said::Order(d, order) => Ok(Event::SetOrder(DylibId(*d), list(alloc, order)?)),
        Said::Tracker(d) => Ok(Event::Tracker(DylibId(*d))),
        Said::Move(t, to) => Ok(Event::MoveTracker(TrackId(*t), TrackId(*to))),
        Said::Remove(t) => Ok(Event::Remove(TrackId(*t))),
        Said::Attach(d, t, unit) => Ok(Event::Attach(DylibId(*d), TrackId(*t), Named(*unit))),
        Said::Define(d, t, unit) => Ok(Event::Define(DylibId(*d), TrackId(*t), Named(*unit))),
        Said::Generate(g) => Ok(Event::Generate(GenId(*g))),
        Said::Ask(order, names, level, note) => ask_of(alloc, order, names, *level, *note),
        Said::Collect(q) => Ok(Event::Collect(QueryId(*q))),
        Said::Take => Ok(Event::Take),
        Said::Place(u, need, align) => Ok(place_of(*u, *need, *align)),
        Said::Resolve(u) => Ok(Event::Resolve(UnitId(*u))),
        Said::Link(u) => Ok(Event::Link(UnitId(*u))),
        Said::Emit(u, groups) => Ok(Event::Emit(UnitId(*u), groups_of(alloc, groups)?)),
        Said::Fail(u, why) => Ok(Event::Fail(UnitId(*u), *why)),
        Said::Image => Ok(Event::Image),
    }
}

/// The items.
pub(super) fn list<T: Copy>(alloc: Global, items: &[T]) -> Result<Items<T>, AllocError> {
    Ok(Items::from_vec(items.to_vec(alloc)?))
}

fn place_of(u: u32, need: u64, align: u64) -> Event<Named> {
    Event::Place(UnitId(u), Shape { need, align })
}

fn ask_of(
    alloc: Global,
    order: &[OrderItem],
    names: &[Wanted],
    level: Level,
    note: Option<u32>,
) -> Result<Event<Named>, AllocError> {
    let order = list(alloc, order)?;
    Ok(Event::Ask(order, list(alloc, names)?, level, note))
}

fn group_of(alloc: Global, row: &GroupRow) -> Result<Group, AllocError> {
    let members = list(alloc, row.0)?;
    let deps = list(alloc, row.1)?;
    Ok(Group { members, deps })
}

fn groups_of(alloc: Global, rows: &[GroupRow]) -> Result<Groups, AllocError> {
    let mut groups = Vec::new(alloc);
    for row in rows {
        groups.push(group_of(alloc, row)?)?;
    }
    Ok(Items::from_vec(groups))
}
