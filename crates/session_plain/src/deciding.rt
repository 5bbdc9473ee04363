ghost use Rattle.std.specs.Prelude.{◌≡◌, [], IfOk};
ghost use Rattle.session_model.specs.Change.{change_of, generated, linked_matches};
ghost use Rattle.session_model.specs.State.{plain_event};
ghost use Rattle.session_plain.specs.Changing.{plain_change, told};
ghost use Rattle.session_plain.specs.Meant.{meant, IsSmall, LiveFit};

use crate::defines::unit_verdicts;
use crate::linking::unit_matches;
use crate::lookups::matches;
use crate::plain::PlainSession;
use orc_ids::{
    DylibId, GenId, Group, Groups, InstId, InstList, Items, Level, NameId, OrderItem, SeatNo,
    Shape, TrackId, UnitId, Wanted,
};
use session_model::{Change, Event, Finishing, Matched, Reply, UnitKind, Verdicts, Why};
use std::alloc::{AllocError, Global};

/// A seat that was told that a unit is gone lets it go; any other reply of these changes nothing.
fn heeded<U: UnitKind>(seat: SeatNo, reply: &Reply) -> Change<U>
    ensures { plain_change U.meaning result ≡ told seat.0 reply.now }
{
    match reply {
        Reply::Defunct(u) => Change::LetGo(seat, *u),
        _ => Change::Nothing,
    }
}

fn by_dylib<U: UnitKind>(
    s: &PlainSession<U>,
    seat: SeatNo,
    name: NameId,
    reply: &Reply,
) -> Change<U>
    ensures { plain_change U.meaning result ≡ change_of (meant U.meaning s.now) seat.0 (Event.Dylib name) reply.now }
{
    match reply {
        Reply::Made(_) => Change::MakeDylib(name),
        _ => heeded(seat, reply),
    }
}

fn by_tracker<U: UnitKind>(
    s: &PlainSession<U>,
    seat: SeatNo,
    d: DylibId,
    reply: &Reply,
) -> Change<U>
    ensures { plain_change U.meaning result ≡ change_of (meant U.meaning s.now) seat.0 (Event.Tracker d) reply.now }
{
    match reply {
        Reply::Tracker(_) => Change::MakeTracker(d),
        _ => heeded(seat, reply),
    }
}

fn by_set_order<U: UnitKind>(
    alloc: Global,
    s: &PlainSession<U>,
    seat: SeatNo,
    d: DylibId,
    order: &[OrderItem],
    reply: &Reply,
) -> Result<Change<U>, AllocError>
    ensures { IfOk result (λ change. plain_change U.meaning change ≡ change_of (meant U.meaning s.now) seat.0 (Event.SetOrder d order.now) reply.now) }
{
    match reply {
        Reply::Set => Ok(Change::SetOrder(d, Items::from_vec(order.to_vec(alloc)?))),
        _ => Ok(heeded(seat, reply)),
    }
}

fn by_attach<U: UnitKind>(
    alloc: Global,
    s: &PlainSession<U>,
    seat: SeatNo,
    d: DylibId,
    t: TrackId,
    unit: &U,
    reply: &Reply,
) -> Result<Change<U>, AllocError>
    ensures { IfOk result (λ change. plain_change U.meaning change ≡ change_of (meant U.meaning s.now) seat.0 (Event.Attach d t (U.meaning unit.now)) reply.now) }
{
    match reply {
        Reply::Generator(_) => Ok(Change::Attach(d, t, unit.share(alloc)?)),
        _ => Ok(heeded(seat, reply)),
    }
}

fn by_define<U: UnitKind>(
    alloc: Global,
    s: &PlainSession<U>,
    seat: SeatNo,
    d: DylibId,
    t: TrackId,
    unit: &U,
    reply: &Reply,
) -> Result<Change<U>, AllocError>
    requires { IsSmall s.now }
    ensures { IfOk result (λ change. plain_change U.meaning change ≡ change_of (meant U.meaning s.now) seat.0 (Event.Define d t (U.meaning unit.now)) reply.now) }
{
    match reply {
        Reply::Defined(_, _, _) => {
            let found = unit_verdicts(alloc, &s.rows, d, unit)?;
            Ok(Change::Define(d, t, unit.share(alloc)?, found))
        }
        _ => Ok(heeded(seat, reply)),
    }
}

/// The verdicts on the names of a generator's unit.
fn generator_verdicts<U: UnitKind>(
    alloc: Global,
    s: &PlainSession<U>,
    g: GenId,
) -> Result<Verdicts, AllocError>
    requires { IsSmall s.now }
    ensures { IfOk result (λ found. found ≡ generated (meant U.meaning s.now) g.0) }
{
    match s.generators.get(g.0 as usize) {
        None => Ok(Items::new(alloc)),
        Some(x) => unit_verdicts(alloc, &s.rows, DylibId(x.dylib), &x.unit),
    }
}

/// A generator whose unit may not be defined is used up too.
fn by_generate<U: UnitKind>(
    alloc: Global,
    s: &PlainSession<U>,
    seat: SeatNo,
    g: GenId,
    reply: &Reply,
) -> Result<Change<U>, AllocError>
    requires { IsSmall s.now }
    ensures { IfOk result (λ change. plain_change U.meaning change ≡ change_of (meant U.meaning s.now) seat.0 (Event.Generate g) reply.now) }
{
    match reply {
        Reply::Defined(_, _, _) => Ok(Change::Generate(g, generator_verdicts(alloc, s, g)?)),
        Reply::TooMany | Reply::Duplicate(_, _) => Ok(Change::Spend(g)),
        _ => Ok(heeded(seat, reply)),
    }
}

fn by_ask<U: UnitKind>(
    alloc: Global,
    s: &PlainSession<U>,
    seat: SeatNo,
    order: &[OrderItem],
    wanted: &[Wanted],
    level: Level,
    note: Option<u32>,
    reply: &Reply,
) -> Result<Change<U>, AllocError>
    requires { IsSmall s.now }
    ensures { IfOk result (λ change. plain_change U.meaning change ≡ change_of (meant U.meaning s.now) seat.0 (Event.Ask order.now wanted.now level note) reply.now) }
{
    match reply {
        Reply::Done(_) | Reply::Pending(_) => {
            let found = Items::from_vec(matches(alloc, s, order, wanted)?);
            Ok(Change::Ask(found, level, note))
        }
        _ => Ok(heeded(seat, reply)),
    }
}

fn copy_finishing(alloc: Global, how: &Finishing) -> Result<Finishing, AllocError>
    ensures { IfOk result (λ copy. copy ≡ how.now) }
{
    match how {
        Finishing::Bound(found) => Ok(Finishing::Bound(Items::from_vec(
            found.as_slice().to_vec(alloc)?,
        ))),
        Finishing::Lost(i) => Ok(Finishing::Lost(*i)),
    }
}

fn by_take<U: UnitKind>(
    alloc: Global,
    s: &PlainSession<U>,
    seat: SeatNo,
    reply: &Reply,
) -> Result<Change<U>, AllocError>
    ensures { IfOk result (λ change. plain_change U.meaning change ≡ change_of (meant U.meaning s.now) seat.0 Event.Take reply.now) }
{
    match reply {
        Reply::Start(u) => Ok(Change::Start(seat, *u)),
        Reply::Finish(u, how) => Ok(Change::Finish(seat, *u, copy_finishing(alloc, how)?)),
        _ => Ok(heeded(seat, reply)),
    }
}

fn by_place<U: UnitKind>(
    s: &PlainSession<U>,
    seat: SeatNo,
    u: UnitId,
    shape: Shape,
    reply: &Reply,
) -> Change<U>
    ensures { plain_change U.meaning result ≡ change_of (meant U.meaning s.now) seat.0 (Event.Place u shape) reply.now }
{
    match reply {
        Reply::Placed(base) => Change::Place(u, *base),
        _ => heeded(seat, reply),
    }
}

fn by_resolve<U: UnitKind>(s: &PlainSession<U>, seat: SeatNo, u: UnitId, reply: &Reply) -> Change<U>
    ensures { plain_change U.meaning result ≡ change_of (meant U.meaning s.now) seat.0 (Event.Resolve u) reply.now }
{
    match reply {
        Reply::Resolved => Change::Resolve(u),
        _ => heeded(seat, reply),
    }
}

/// What the externals of the unit match.
fn externals_matched<U: UnitKind>(
    alloc: Global,
    s: &PlainSession<U>,
    u: UnitId,
) -> Result<Matched, AllocError>
    requires small { IsSmall s.now }
    requires live { LiveFit U.meaning s.now.units.items }
    ensures { IfOk result (λ found. found ≡ linked_matches (meant U.meaning s.now) u.0) }
{
    match s.units.get(u.0 as usize) {
        None => Ok(Items::new(alloc)),
        Some(x) => Ok(Items::from_vec(unit_matches(alloc, s, x)?)),
    }
}

fn by_link<U: UnitKind>(
    alloc: Global,
    s: &PlainSession<U>,
    seat: SeatNo,
    u: UnitId,
    reply: &Reply,
) -> Result<Change<U>, AllocError>
    requires small { IsSmall s.now }
    requires live { LiveFit U.meaning s.now.units.items }
    ensures { IfOk result (λ change. plain_change U.meaning change ≡ change_of (meant U.meaning s.now) seat.0 (Event.Link u) reply.now) }
{
    match reply {
        Reply::Done(_) | Reply::Pending(_) => {
            Ok(Change::Link(u, externals_matched(alloc, s, u)?))
        }
        _ => Ok(heeded(seat, reply)),
    }
}

fn copy_instances(alloc: Global, all: &[InstId]) -> Result<InstList, AllocError>
    ensures { IfOk result (λ copy. copy ≡ all.now) }
{
    Ok(Items::from_vec(all.to_vec(alloc)?))
}

fn copy_group(alloc: Global, group: &Group) -> Result<Group, AllocError>
    ensures { IfOk result (λ copy. copy ≡ group.now) }
{
    Ok(Group {
        members: copy_instances(alloc, group.members.as_slice())?,
        deps: copy_instances(alloc, group.deps.as_slice())?,
    })
}

fn copy_groups(alloc: Global, groups: &[Group]) -> Result<Groups, AllocError>
    ensures { IfOk result (λ copy. copy ≡ groups.now) }
{
    let mut copy = Vec::new(alloc);
    for group in groups {
        copy.push(copy_group(alloc, group)?)?;
    }
    Ok(Items::from_vec(copy))
}

fn by_emit<U: UnitKind>(
    alloc: Global,
    s: &PlainSession<U>,
    seat: SeatNo,
    u: UnitId,
    groups: &[Group],
    reply: &Reply,
) -> Result<Change<U>, AllocError>
    ensures { IfOk result (λ change. plain_change U.meaning change ≡ change_of (meant U.meaning s.now) seat.0 (Event.Emit u groups.now) reply.now) }
{
    match reply {
        Reply::Emitted => Ok(Change::Emit(u, copy_groups(alloc, groups)?)),
        _ => Ok(heeded(seat, reply)),
    }
}

fn by_fail<U: UnitKind>(
    s: &PlainSession<U>,
    seat: SeatNo,
    u: UnitId,
    why: Why,
    reply: &Reply,
) -> Change<U>
    ensures { plain_change U.meaning result ≡ change_of (meant U.meaning s.now) seat.0 (Event.Fail u why) reply.now }
{
    match reply {
        Reply::Failed => Change::Fail(u),
        _ => heeded(seat, reply),
    }
}

fn by_move<U: UnitKind>(
    s: &PlainSession<U>,
    seat: SeatNo,
    t: TrackId,
    to: TrackId,
    reply: &Reply,
) -> Change<U>
    ensures { plain_change U.meaning result ≡ change_of (meant U.meaning s.now) seat.0 (Event.MoveTracker t to) reply.now }
{
    match reply {
        Reply::Moved => Change::Move(t, to),
        _ => heeded(seat, reply),
    }
}

fn by_remove<U: UnitKind>(s: &PlainSession<U>, seat: SeatNo, t: TrackId, reply: &Reply) -> Change<U>
    ensures { plain_change U.meaning result ≡ change_of (meant U.meaning s.now) seat.0 (Event.Remove t) reply.now }
{
    match reply {
        Reply::Removed => Change::Remove(t),
        _ => heeded(seat, reply),
    }
}

/// What the reply to an event of the seat changes, with all that was decided for it.
pub fn decide<U: UnitKind>(
    alloc: Global,
    s: &PlainSession<U>,
    seat: SeatNo,
    event: &Event<U>,
    reply: &Reply,
) -> Result<Change<U>, AllocError>
    requires small { IsSmall s.now }
    requires live { LiveFit U.meaning s.now.units.items }
    ensures { IfOk result (λ change. plain_change U.meaning change ≡ change_of (meant U.meaning s.now) seat.0 (plain_event U.meaning event.now) reply.now) }
{
    match event {
        Event::Dylib(name) => Ok(by_dylib(s, seat, *name, reply)),
        Event::SetOrder(d, order) => by_set_order(alloc, s, seat, *d, order.as_slice(), reply),
        Event::Attach(d, t, unit) => by_attach(alloc, s, seat, *d, *t, unit, reply),
        Event::Define(d, t, unit) => by_define(alloc, s, seat, *d, *t, unit, reply),
        Event::Generate(g) => by_generate(alloc, s, seat, *g, reply),
        Event::Ask(order, wanted, level, note) => by_ask(
            alloc,
            s,
            seat,
            order.as_slice(),
            wanted.as_slice(),
            *level,
            *note,
            reply,
        ),
        Event::Collect(_) => Ok(heeded(seat, reply)),
        Event::Take => by_take(alloc, s, seat, reply),
        Event::Place(u, shape) => Ok(by_place(s, seat, *u, *shape, reply)),
        Event::Resolve(u) => Ok(by_resolve(s, seat, *u, reply)),
        Event::Link(u) => by_link(alloc, s, seat, *u, reply),
        Event::Emit(u, groups) => by_emit(alloc, s, seat, *u, groups.as_slice(), reply),
        Event::Fail(u, why) => Ok(by_fail(s, seat, *u, *why, reply)),
        Event::Tracker(d) => Ok(by_tracker(s, seat, *d, reply)),
        Event::MoveTracker(t, to) => Ok(by_move(s, seat, *t, *to, reply)),
        Event::Remove(t) => Ok(by_remove(s, seat, *t, reply)),
        Event::Image => Ok(heeded(seat, reply)),
    }
}
