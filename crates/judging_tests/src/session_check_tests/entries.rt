//! The entries of a table.

use super::{Lie, Line, Offer, Parts, Said, Told};
use orc_ids::{
    DylibId, GenId, Group, Groups, InstId, Items, Level, NameId, OrderItem, QueryId, Scope, SeatNo,
    Shape, SymFlags, TrackId, UnitId, UnitName, Wanted,
};
use session_check::KnownUnit;
use session_model::{Entry, Event, Finishing, Matches, Reply};
use std::alloc::{AllocError, Global};
use std::test::Fail;

fn offer_of(offer: Offer) -> (NameId, SymFlags) {
    let flags = SymFlags {
        weak: offer.weak,
        common: false,
        exported: offer.exported,
        callable: true,
    };
    (NameId(offer.name), flags)
}

fn wanted(name: u32) -> Wanted {
    Wanted {
        name: NameId(name),
        weak: false,
    }
}

fn shape_of(need: u64) -> Shape {
    Shape { need, align: 16 }
}

fn list<T: Copy>(alloc: Global, items: &[T]) -> Result<Items<T>, AllocError> {
    Ok(Items::from_vec(items.to_vec(alloc)?))
}

fn offers_of(alloc: Global, parts: &Parts) -> Result<Vec<(NameId, SymFlags)>, AllocError> {
    match parts.second {
        Some(second) => [offer_of(parts.first), offer_of(second)].to_vec(alloc),
        None => [offer_of(parts.first)].to_vec(alloc),
    }
}

fn externals_of(alloc: Global, external: Option<u32>) -> Result<Vec<Wanted>, AllocError> {
    match external {
        Some(name) => [wanted(name)].to_vec(alloc),
        None => Ok(Vec::new(alloc)),
    }
}

fn unit_of(alloc: Global, parts: &Parts) -> Result<KnownUnit, Fail> {
    let offers = offers_of(alloc, parts)?;
    let externals = externals_of(alloc, parts.external)?;
    let shape = Some(shape_of(parts.need));
    let unit = KnownUnit::new(UnitName::Object(0), offers, shape, externals, None);
    Ok(unit.ok_or("no unit")?)
}

/// So many items of the first dylib.
fn order_of(alloc: Global, scope: Scope, count: u32) -> Result<Items<OrderItem>, AllocError> {
    let item = OrderItem {
        dylib: DylibId(0),
        scope,
    };
    let mut order = Vec::new(alloc);
    order.resize(count as usize, item)?;
    Ok(Items::from_vec(order))
}

fn ask_of(
    alloc: Global,
    scope: Scope,
    count: u32,
    name: u32,
) -> Result<Event<KnownUnit>, AllocError> {
    let order = order_of(alloc, scope, count)?;
    Ok(Event::Ask(order, list(alloc, &[wanted(name)])?, Level::Ready, None))
}

/// An alias is defined in the first dylib.
fn alias_of(
    alloc: Global,
    t: u32,
    name: u32,
    source: u32,
    target: u32,
) -> Result<Event<KnownUnit>, AllocError> {
    let (source, target) = (DylibId(source), NameId(target));
    let unit = KnownUnit::alias(alloc, UnitName::Alias(0), NameId(name), source, target)?;
    Ok(Event::Define(DylibId(0), TrackId(t), unit))
}

fn members_of(alloc: Global, first: u32, last: u32) -> Result<Items<InstId>, AllocError> {
    if first == last {
        list(alloc, &[InstId(first)])
    } else {
        list(alloc, &[InstId(first), InstId(last)])
    }
}

fn deps_of(alloc: Global, dep: Option<u32>) -> Result<Items<InstId>, AllocError> {
    match dep {
        Some(i) => list(alloc, &[InstId(i)]),
        None => Ok(Items::new(alloc)),
    }
}

fn group_of(alloc: Global, first: u32, last: u32, dep: Option<u32>) -> Result<Group, AllocError> {
    let members = members_of(alloc, first, last)?;
    let deps = deps_of(alloc, dep)?;
    Ok(Group { members, deps })
}

fn groups_of(alloc: Global, first: u32, last: u32, dep: Option<u32>) -> Result<Groups, AllocError> {
    let group = group_of(alloc, first, last, dep)?;
    Ok(Items::from_vec(vec![in alloc; group]?))
}

fn event_of(alloc: Global, said: &Said) -> Result<Event<KnownUnit>, Fail> {
    match said {
        Said::Dylib(name) => Ok(Event::Dylib(NameId(*name))),
        Said::Tracker(d) => Ok(Event::Tracker(DylibId(*d))),
        Said::Define(t, parts) => Ok(Event::Define(
            DylibId(0),
            TrackId(*t),
            unit_of(alloc, parts)?,
        )),
        Said::Attach(t, parts) => Ok(Event::Attach(
            DylibId(0),
            TrackId(*t),
            unit_of(alloc, parts)?,
        )),
        Said::Generate(g) => Ok(Event::Generate(GenId(*g))),
        Said::Alias(t, name, source, target) => {
            Ok(alias_of(alloc, *t, *name, *source, *target)?)
        }
        Said::Order(count) => Ok(Event::SetOrder(DylibId(0), order_of(alloc, Scope::All, *count)?)),
        Said::Ask(scope, name) => Ok(ask_of(alloc, *scope, 1, *name)?),
        Said::AskIn(count, name) => Ok(ask_of(alloc, Scope::All, *count, *name)?),
        Said::Collect(q) => Ok(Event::Collect(QueryId(*q))),
        Said::Take => Ok(Event::Take),
        Said::Place(u, need) => Ok(Event::Place(UnitId(*u), shape_of(*need))),
        Said::Resolve(u) => Ok(Event::Resolve(UnitId(*u))),
        Said::Link(u) => Ok(Event::Link(UnitId(*u))),
        Said::Emit(u, first, last, dep) => Ok(Event::Emit(
            UnitId(*u),
            groups_of(alloc, *first, *last, *dep)?,
        )),
        Said::Fail(u, why) => Ok(Event::Fail(UnitId(*u), *why)),
        Said::Remove(t) => Ok(Event::Remove(TrackId(*t))),
        Said::Image => Ok(Event::Image),
    }
}

fn matches_of(alloc: Global, found: Option<(u32, u64)>) -> Result<Matches, AllocError> {
    match found {
        Some((i, address)) => list(alloc, &[Some((InstId(i), address))]),
        None => Ok(Items::new(alloc)),
    }
}

fn found_of(alloc: Global, at: u64, i: u32, address: u64) -> Result<Reply, AllocError> {
    Ok(Reply::Found(at, matches_of(alloc, Some((i, address)))?))
}

fn finish_of(alloc: Global, u: u32, found: Option<(u32, u64)>) -> Result<Reply, AllocError> {
    let how = Finishing::Bound(matches_of(alloc, found)?);
    Ok(Reply::Finish(UnitId(u), how))
}

fn reply_of(alloc: Global, told: Told) -> Result<Reply, AllocError> {
    match told {
        Told::Made(d) => Ok(Reply::Made(DylibId(d))),
        Told::Set => Ok(Reply::Set),
        Told::Tracker(t) => Ok(Reply::Tracker(TrackId(t))),
        Told::Defined(u, i, count) => Ok(Reply::Defined(UnitId(u), InstId(i), count)),
        Told::Duplicate(name, i) => Ok(Reply::Duplicate(NameId(name), InstId(i))),
        Told::Generator(g) => Ok(Reply::Generator(GenId(g))),
        Told::Spent(g) => Ok(Reply::Spent(GenId(g))),
        Told::Offer(g) => Ok(Reply::Offer(GenId(g))),
        Told::InError(i) => Ok(Reply::InError(InstId(i))),
        Told::Missing(name) => Ok(Reply::Missing(NameId(name))),
        Told::AliasCycle(i) => Ok(Reply::AliasCycle(InstId(i))),
        Told::Done(q) => Ok(Reply::Done(QueryId(q))),
        Told::Pending(q) => Ok(Reply::Pending(QueryId(q))),
        Told::Found(at, i, address) => found_of(alloc, at, i, address),
        Told::Lost(at, i) => Ok(Reply::Lost(at, InstId(i))),
        Told::Start(u) => Ok(Reply::Start(UnitId(u))),
        Told::Finish(u, found) => finish_of(alloc, u, found),
        Told::FinishLost(u, i) => Ok(Reply::Finish(UnitId(u), Finishing::Lost(InstId(i)))),
        Told::NoRoom(need) => Ok(Reply::NoRoom(need)),
        Told::Placed(base) => Ok(Reply::Placed(base)),
        Told::Resolved => Ok(Reply::Resolved),
        Told::BadDep(i) => Ok(Reply::BadDep(InstId(i))),
        Told::Emitted => Ok(Reply::Emitted),
        Told::Failed => Ok(Reply::Failed),
        Told::Removed => Ok(Reply::Removed),
        Told::Defunct(u) => Ok(Reply::Defunct(UnitId(u))),
        Told::Image => Ok(Reply::Image),
    }
}

fn entry_of(alloc: Global, line: &Line) -> Result<Entry<KnownUnit>, Fail> {
    let (seat, said, told) = line;
    Ok(Entry {
        seat: SeatNo(*seat),
        event: event_of(alloc, said)?,
        reply: reply_of(alloc, *told)?,
    })
}

/// The entry of this number, or what is put in its place.
fn told_at<'a>(k: usize, line: &'a Line, lie: Option<&'a Lie>) -> &'a Line {
    match lie {
        Some((at, other)) if *at == k => other,
        _ => line,
    }
}

/// The entries, one of them changed where there is a lie.
pub(super) fn history_of(
    alloc: Global,
    lines: &[Line],
    lie: Option<&Lie>,
) -> Result<Vec<Entry<KnownUnit>>, Fail> {
    let mut history = Vec::new(alloc);
    for (k, line) in lines.iter().enumerate() {
        history.push(entry_of(alloc, told_at(k, line, lie))?)?;
    }
    Ok(history)
}
