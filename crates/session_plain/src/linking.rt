ghost use Rattle.std.specs.Prelude.{◌≡◌, ◌++◌, ◌∷◌, [], drop, length, IfOk};
ghost use Rattle.session_model.specs.Answer.{AnswersCall, answer_link, called, can_link, refused_lookup};
ghost use Rattle.session_model.specs.Change.{itself_then, link_order, link_matches};
ghost use Rattle.session_plain.specs.Linking.{link_reply, link_unit_reply, tracker_order};
ghost use Rattle.session_plain.specs.Meant.{meant, unit_row, IsSmall, LiveFit};

use crate::calls::{link_is_next, turn_away};
use crate::chains::cycle_reply;
use crate::lookups::{matches, refusal, reply_lodged};
use crate::plain::{PlainSession, PlainUnit};
use orc_ids::{DylibId, InstId, Level, OrderItem, Scope, SeatNo, UnitId, Wanted};
use session_model::{Reply, UnitKind};
use std::alloc::{AllocError, Global};

/// The order that begins with the dylib itself.
pub fn order_from(
    alloc: Global,
    d: DylibId,
    order: &[OrderItem],
) -> Result<Vec<OrderItem>, AllocError>
    ensures { IfOk result (λ all. all.items ≡ itself_then d.0 order.now) }
{
    let mut all = Vec::new(alloc);
    all.push(OrderItem {
        dylib: d,
        scope: Scope::All,
    })?;
    all.extend_from_slice(order)?;
    Ok(all)
}

/// The order of the dylib of a unit's tracker.
fn dylib_order<U: UnitKind>(
    alloc: Global,
    s: &PlainSession<U>,
    x: &PlainUnit<U>,
) -> Result<Vec<OrderItem>, AllocError>
    ensures { IfOk result (λ order. order.items ≡ tracker_order (meant U.meaning s.now) x.now.tracker) }
{
    match s.trackers.get(x.tracker as usize) {
        None => Ok(Vec::new(alloc)),
        Some(t) => match s.dylibs.get(t.dylib as usize) {
            None => Ok(Vec::new(alloc)),
            Some(d) => Ok(d.order.as_slice().to_vec(alloc)?),
        },
    }
}

/// Where a unit's externals are looked up.
fn order_of<U: UnitKind>(
    alloc: Global,
    s: &PlainSession<U>,
    x: &PlainUnit<U>,
) -> Result<Vec<OrderItem>, AllocError>
    ensures { IfOk result (λ order. order.items ≡ link_order (meant U.meaning s.now) (unit_row U.meaning x.now)) }
{
    match x.unit.source() {
        Some(d) => order_from(alloc, d, &[]),
        None => dylib_order(alloc, s, x),
    }
}

/// What a unit's externals match.
pub fn unit_matches<U: UnitKind>(
    alloc: Global,
    s: &PlainSession<U>,
    x: &PlainUnit<U>,
) -> Result<Vec<Option<InstId>>, AllocError>
    requires small { IsSmall s.now }
    requires live { length x.now.live ≡ length (U.meaning x.now.unit).offers }
    ensures { IfOk result (λ found. found.items ≡ link_matches (meant U.meaning s.now) (unit_row U.meaning x.now)) }
{
    let order = order_of(alloc, s, x)?;
    let wanted = x.unit.externals(alloc, x.live.as_slice())?;
    matches(alloc, s, &order, &wanted)
}

/// Why the unit's externals can't be asked for, if they can't.
fn unit_refusal<U: UnitKind>(
    alloc: Global,
    s: &PlainSession<U>,
    x: &PlainUnit<U>,
) -> Result<Option<Reply>, AllocError>
    requires small { IsSmall s.now }
    requires live { length x.now.live ≡ length (U.meaning x.now.unit).offers }
    ensures { IfOk result (λ reply. reply ≡ refused_lookup (meant U.meaning s.now) (link_order (meant U.meaning s.now) (unit_row U.meaning x.now)) ((U.meaning x.now.unit).externals x.now.live)) }
{
    let order = order_of(alloc, s, x)?;
    let wanted = x.unit.externals(alloc, x.live.as_slice())?;
    Ok(refusal(s, &order, &wanted))
}

/// What looking a unit's externals up is answered, once the call is right.
fn external_reply<U: UnitKind>(
    alloc: Global,
    s: &PlainSession<U>,
    u: UnitId,
    x: &PlainUnit<U>,
) -> Result<Reply, AllocError>
    requires small { IsSmall s.now }
    requires live { length x.now.live ≡ length (U.meaning x.now.unit).offers }
    ensures { IfOk result (λ reply. reply ≡ answer_link (meant U.meaning s.now) u.0 (unit_row U.meaning x.now)) }
{
    if let Some(reply) = unit_refusal(alloc, s, x)? {
        return Ok(reply);
    }
    let found = unit_matches(alloc, s, x)?;
    if let Some(reply) = cycle_reply(alloc, s, u, x, &found)? {
        return Ok(reply);
    }
    reply_lodged(alloc, s, Level::Resolved, &found)
}

fn unit_link<U: UnitKind>(
    alloc: Global,
    s: &PlainSession<U>,
    x: &PlainUnit<U>,
    seat: SeatNo,
    u: UnitId,
) -> Result<Reply, AllocError>
    requires small { IsSmall s.now }
    requires live { length x.now.live ≡ length (U.meaning x.now.unit).offers }
    ensures { IfOk result (λ reply. reply ≡ link_unit_reply (meant U.meaning s.now) seat.0 u (unit_row U.meaning x.now)) }
{
    match turn_away(x, seat, u, link_is_next(x)) {
        Some(reply) => Ok(reply),
        None => external_reply(alloc, s, u, x),
    }
}

fn answer_of_link<U: UnitKind>(
    alloc: Global,
    s: &PlainSession<U>,
    seat: SeatNo,
    u: UnitId,
) -> Result<Reply, AllocError>
    requires small { IsSmall s.now }
    requires live { LiveFit U.meaning s.now.units.items }
    ensures { IfOk result (λ reply. reply ≡ link_reply (meant U.meaning s.now) seat.0 u) }
{
    match s.units.get(u.0 as usize) {
        None => Ok(Reply::WrongPhase(u)),
        Some(x) => unit_link(alloc, s, x, seat, u),
    }
}

/// What looking a unit's externals up is answered, by any seat and at any phase.
pub fn reply_link<U: UnitKind>(
    alloc: Global,
    s: &PlainSession<U>,
    seat: SeatNo,
    u: UnitId,
) -> Result<Reply, AllocError>
    requires small { IsSmall s.now }
    requires live { LiveFit U.meaning s.now.units.items }
    ensures { IfOk result (λ reply. AnswersCall (called (meant U.meaning s.now) seat.0 u can_link) u (λ x. reply ≡ answer_link (meant U.meaning s.now) u.0 x) reply) }
{
    let reply = answer_of_link(alloc, s, seat, u)?;
    Ok(reply)
}
