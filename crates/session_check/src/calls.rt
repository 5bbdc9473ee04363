ghost use Rattle.std.specs.Prelude.{◌≡◌, ◌↔◌, ◌<◌, ◌^◌, ◌++◌, ◌∷◌, [], true, length, unwrap_or, Some, IsTrue, IfOk, OnOk, if◌then◌else◌};
ghost use Rattle.session_model.specs.Answer.{AnswersCall, AnswersEmit, AnswersPlace, HasCause, answer_link, called, can_emit, can_link, can_place, can_resolve};
ghost use Rattle.session_model.specs.Plain.{own_rows, unit_shape};
ghost use Rattle.session_model.specs.State.{plain_history};
ghost use Rattle.session_check.specs.Replay.{LedTo};
ghost use Rattle.session_plain.specs.Calls.{called_at};
ghost use Rattle.session_plain.specs.Meant.{meant, unit_row, IsSmall, LiveFit};

use crate::sample::Sample;
use orc_ids::{Group, InstId, Place, SeatNo, Shape, UnitId};
use session_model::{Entry, InstRow, Reply, UnitKind, Why, same_reply};
use session_past::{Settled, has_cause};
use session_plain::{
    PlainSession, PlainUnit, bindings, emit_is_next, may_be_placed, owned, place_is_next,
    reply_by_deps, reply_link, reply_resolve, same_groups, turn_away, unit_there,
};
use std::alloc::{AllocError, Global};

fn unit_placed<U: UnitKind>(
    alloc: Global,
    s: &PlainSession<U>,
    x: &PlainUnit<U>,
    seat: SeatNo,
    u: UnitId,
    shape: Shape,
    reply: &Reply,
) -> Result<bool, AllocError>
    requires session { LiveFit U.meaning s.now.units.items }
    requires unit { length x.now.live ≡ length (U.meaning x.now.unit).offers }
    ensures { IfOk result (λ right. IsTrue right ↔ AnswersCall (called_at seat.0 can_place (unit_row U.meaning x.now)) u (λ y. (unit_shape y ≡ Some shape) × AnswersPlace (meant U.meaning s.now) shape reply.now) reply.now) }
{
    match turn_away(x, seat, u, place_is_next(x)) {
        Some(known) => Ok(same_reply(reply, &known)),
        None => may_be_placed(alloc, s, x, shape, reply),
    }
}

/// Whether the unit is placed so.
pub fn place_is_right<U: UnitKind>(
    alloc: Global,
    s: &PlainSession<U>,
    seat: SeatNo,
    u: UnitId,
    shape: Shape,
    reply: &Reply,
) -> Result<bool, AllocError>
    requires { LiveFit U.meaning s.now.units.items }
    ensures { IfOk result (λ right. IsTrue right ↔ AnswersCall (called (meant U.meaning s.now) seat.0 u can_place) u (λ y. (unit_shape y ≡ Some shape) × AnswersPlace (meant U.meaning s.now) shape reply.now) reply.now) }
{
    match unit_there(s, u) {
        Some(x) => unit_placed(alloc, s, x, seat, u, shape, reply),
        None => Ok(same_reply(reply, &Reply::WrongPhase(u))),
    }
}

/// Whether the unit is resolved so.
pub fn resolve_is_right<U: UnitKind>(
    s: &PlainSession<U>,
    seat: SeatNo,
    u: UnitId,
    reply: &Reply,
) -> bool
    requires { LiveFit U.meaning s.now.units.items }
    ensures { IsTrue result ↔ AnswersCall (called (meant U.meaning s.now) seat.0 u can_resolve) u (λ x. reply.now ≡ Reply.Resolved) reply.now }
{
    same_reply(reply, &reply_resolve(s, seat, u))
}

/// Whether the unit's externals are looked up so.
pub fn link_is_right<U: UnitKind>(
    alloc: Global,
    s: &PlainSession<U>,
    seat: SeatNo,
    u: UnitId,
    reply: &Reply,
) -> Result<bool, AllocError>
    requires small { IsSmall s.now }
    requires live { LiveFit U.meaning s.now.units.items }
    ensures { IfOk result (λ right. IsTrue right ↔ AnswersCall (called (meant U.meaning s.now) seat.0 u can_link) u (λ x. reply.now ≡ answer_link (meant U.meaning s.now) u.0 x) reply.now) }
{
    Ok(same_reply(reply, &reply_link(alloc, s, seat, u)?))
}

fn keep_own(own: &mut Vec<InstId>, k: usize, kept: bool) -> Result<(), AllocError>
    requires { k < 2 ^ 32 }
    ensures { OnOk result (own.new.items ≡ (if kept then own.old.items ++ record { 0 = k } ∷ [] else own.old.items)) }
{
    if kept {
        own.push(InstId(k as u32))?;
    }
    Ok(())
}

/// The unit's instances, in order.
pub fn own_instances(alloc: Global, rows: &[InstRow], u: UnitId) -> Result<Vec<InstId>, AllocError>
    requires { length rows.now < 2 ^ 32 }
    ensures { IfOk result (λ own. own.items ≡ own_rows u.0 0 rows.now) }
{
    let mut own = Vec::new(alloc);
    for (k, row) in rows.iter().enumerate() {
        keep_own(&mut own, k, owned(u.0, row))?;
    }
    Ok(own)
}

/// What refuses the unit where it is placed, with its bindings if it has some.
fn unit_refusal<U: Sample>(x: &PlainUnit<U>) -> Option<(Place, u32, i64)>
    requires { length x.now.live ≡ length (U.meaning x.now.unit).offers }
    ensures { result ≡ (U.meaning x.now.unit).refusal x.now.live (unwrap_or x.now.base 0) (unwrap_or x.now.bound []) }
{
    let base = x.base.unwrap_or(0);
    x.unit.refusal(x.live.as_slice(), base, bindings(x))
}

/// Whether these are the unit's own groups.
fn own_groups<U: Sample>(
    alloc: Global,
    s: &PlainSession<U>,
    x: &PlainUnit<U>,
    u: UnitId,
    groups: &[Group],
) -> Result<bool, AllocError>
    requires small { IsSmall s.now }
    requires live { length x.now.live ≡ length (U.meaning x.now.unit).offers }
    ensures { IfOk result (λ own. IsTrue own ↔ (groups.now ≡ (U.meaning x.now.unit).groups x.now.live (unwrap_or x.now.base 0) (unwrap_or x.now.bound []) (own_rows u.0 0 (meant U.meaning s.now).rows))) }
{
    let own = own_instances(alloc, &s.rows, u)?;
    let base = x.base.unwrap_or(0);
    let known = x
        .unit
        .groups(alloc, x.live.as_slice(), base, bindings(x), &own)?;
    Ok(same_groups(groups, known.as_slice()))
}

/// Whether a unit that may be emitted is emitted so.
fn is_emitted<U: Sample>(
    alloc: Global,
    s: &PlainSession<U>,
    x: &PlainUnit<U>,
    u: UnitId,
    groups: &[Group],
    reply: &Reply,
) -> Result<bool, AllocError>
    requires small { IsSmall s.now }
    requires live { length x.now.live ≡ length (U.meaning x.now.unit).offers }
    ensures { IfOk result (λ right. IsTrue right ↔ AnswersEmit (meant U.meaning s.now) u.0 groups.now (unit_row U.meaning x.now) reply.now) }
{
    let own = own_groups(alloc, s, x, u, groups)?;
    let known = reply_by_deps(&s.rows, groups);
    Ok(own && unit_refusal(x).is_none() && same_reply(reply, &known))
}

fn unit_emitted<U: Sample>(
    alloc: Global,
    s: &PlainSession<U>,
    x: &PlainUnit<U>,
    seat: SeatNo,
    u: UnitId,
    groups: &[Group],
    reply: &Reply,
) -> Result<bool, AllocError>
    requires small { IsSmall s.now }
    requires live { length x.now.live ≡ length (U.meaning x.now.unit).offers }
    ensures { IfOk result (λ right. IsTrue right ↔ AnswersCall (called_at seat.0 can_emit (unit_row U.meaning x.now)) u (λ y. AnswersEmit (meant U.meaning s.now) u.0 groups.now y reply.now) reply.now) }
{
    match turn_away(x, seat, u, emit_is_next(x)) {
        Some(known) => Ok(same_reply(reply, &known)),
        None => is_emitted(alloc, s, x, u, groups, reply),
    }
}

/// Whether the unit is emitted so.
pub fn emit_is_right<U: Sample>(
    alloc: Global,
    s: &PlainSession<U>,
    seat: SeatNo,
    u: UnitId,
    groups: &[Group],
    reply: &Reply,
) -> Result<bool, AllocError>
    requires small { IsSmall s.now }
    requires live { LiveFit U.meaning s.now.units.items }
    ensures { IfOk result (λ right. IsTrue right ↔ AnswersCall (called (meant U.meaning s.now) seat.0 u can_emit) u (λ y. AnswersEmit (meant U.meaning s.now) u.0 groups.now y reply.now) reply.now) }
{
    match unit_there(s, u) {
        Some(x) => unit_emitted(alloc, s, x, seat, u, groups, reply),
        None => Ok(same_reply(reply, &Reply::WrongPhase(u))),
    }
}

fn unit_failed<U: Sample>(
    jmax: u64,
    past: &[Entry<U>],
    s: &PlainSession<U>,
    ends: &[Option<Settled>],
    x: &PlainUnit<U>,
    seat: SeatNo,
    u: UnitId,
    why: Why,
    reply: &Reply,
) -> bool
    requires led { LedTo (plain_history U.meaning past.now) (meant U.meaning s.now) ends.now }
    requires live { length x.now.live ≡ length (U.meaning x.now.unit).offers }
    ensures { IsTrue result ↔ AnswersCall (called_at seat.0 (λ y. true) (unit_row U.meaning x.now)) u (λ y. HasCause jmax (plain_history U.meaning past.now) (meant U.meaning s.now) u.0 y why × (reply.now ≡ Reply.Failed)) reply.now }
{
    match turn_away(x, seat, u, true) {
        Some(known) => same_reply(reply, &known),
        None => {
            has_cause(jmax, past, s, ends, u, x, unit_refusal(x), why)
                && same_reply(reply, &Reply::Failed)
        }
    }
}

/// Whether the unit is given up so, and may be.
pub fn fail_is_right<U: Sample>(
    jmax: u64,
    past: &[Entry<U>],
    s: &PlainSession<U>,
    ends: &[Option<Settled>],
    seat: SeatNo,
    u: UnitId,
    why: Why,
    reply: &Reply,
) -> bool
    requires led { LedTo (plain_history U.meaning past.now) (meant U.meaning s.now) ends.now }
    requires live { LiveFit U.meaning s.now.units.items }
    ensures { IsTrue result ↔ AnswersCall (called (meant U.meaning s.now) seat.0 u (λ y. true)) u (λ y. HasCause jmax (plain_history U.meaning past.now) (meant U.meaning s.now) u.0 y why × (reply.now ≡ Reply.Failed)) reply.now }
{
    match unit_there(s, u) {
        Some(x) => unit_failed(jmax, past, s, ends, x, seat, u, why, reply),
        None => same_reply(reply, &Reply::WrongPhase(u)),
    }
}
