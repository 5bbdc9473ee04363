//! Calls that are fitted to a session: what its events ask of their arguments is found by the plain session.

ghost use Rattle.std.specs.Prelude.{◌≡◌, ℕ, List, false, length, Some, None, IfOk, IfSome, unwrap_or, []};
ghost use Rattle.std.specs.Bool.{OnTrue};
ghost use Rattle.session_model.specs.Answer.{Right, called, can_place};
ghost use Rattle.session_model.specs.Plain.{UnitRow, own_rows, unit_shape};
ghost use Rattle.session_model.specs.State.{plain_history};
ghost use Rattle.session_model.specs.Memory.{unit_image};
ghost use Rattle.session_model.specs.declared.entry.Entry.{Entry};
ghost use Rattle.session_steps.specs.Allowed.{MayEmit, MayFail};
ghost use Rattle.session_steps.specs.Finish.{IsFinish};
ghost use Rattle.session_check.specs.Known.{Known, known_meaning};
ghost use Rattle.session_plain.specs.Meant.{meant, unit_row, IsSmall, LiveFit};
ghost use Rattle.session_player.specs.Fits.{Fits};
ghost use Rattle.session_shadow.specs.Follows.{Follows, IsShadow};

use crate::shadow::Shadow;
use execution_session::NOTHING;
use orc_ids::{Bytes, Groups, Items, ORDER_LIMIT, SeatNo, Shape, UnitId, WANTED_LIMIT};
use session_check::{KnownUnit, Sample, own_instances};
use session_model::{Entry, UnitKind, Why};
use session_past::has_cause;
use session_plain::{
    PlainSession, PlainUnit, bindings, emit_is_next, source_known, turn_away, unit_there,
};
use session_player::Call;
use std::alloc::{AllocError, Global};

/// The memory that the unit needs, which may be none.
fn own_shape(shadow: &Shadow, u: UnitId) -> Shape
    requires { IsShadow shadow.now }
    ensures { (s : ℕ) (x : UnitRow) → called (meant known_meaning shadow.now.plain) s u can_place ≡ Right x → unit_shape x ≡ Some result }
{
    shadow.suits();
    match unit_there(&shadow.plain, u) {
        Some(x) => x.unit.shape(x.live.as_slice()).unwrap_or(NOTHING),
        None => NOTHING,
    }
}

/// The bytes that a unit has in memory: zeros.
fn image(alloc: Global, x: &PlainUnit<KnownUnit>) -> Result<Bytes, AllocError>
    requires { length x.now.live ≡ length (known_meaning x.now.unit).offers }
    ensures { IfOk result (λ bytes. bytes ≡ unit_image (unit_row known_meaning x.now)) }
{
    let need = match x.unit.shape(x.live.as_slice()) {
        Some(shape) => shape.need as usize,
        None => 0,
    };
    Ok(Bytes::from_vec(vec![in alloc; 0; need]?))
}

/// The unit's own groups.
fn groups(
    alloc: Global,
    plain: &PlainSession<KnownUnit>,
    x: &PlainUnit<KnownUnit>,
    u: UnitId,
) -> Result<Groups, AllocError>
    requires small { IsSmall plain.now }
    requires live { length x.now.live ≡ length (known_meaning x.now.unit).offers }
    ensures { IfOk result (λ groups. groups ≡ (known_meaning x.now.unit).groups x.now.live (unwrap_or x.now.base 0) (unwrap_or x.now.bound []) (own_rows u.0 0 plain.now.rows.items)) }
{
    let own = own_instances(alloc, &plain.rows, u)?;
    x.unit.groups(
        alloc,
        x.live.as_slice(),
        x.base.unwrap_or(0),
        bindings(x),
        &own,
    )
}

/// Whether an edge of the unit is out of range.
fn is_refused(x: &PlainUnit<KnownUnit>) -> bool
    requires { length x.now.live ≡ length (known_meaning x.now.unit).offers }
    ensures { result ≡ false → (known_meaning x.now.unit).refusal x.now.live (unwrap_or x.now.base 0) (unwrap_or x.now.bound []) ≡ None }
{
    x.unit
        .refusal(x.live.as_slice(), x.base.unwrap_or(0), bindings(x))
        .is_some()
}

/// What an emit of the unit hands in; none where an edge of it is out of range.
fn finished(
    alloc: Global,
    plain: &PlainSession<KnownUnit>,
    x: &PlainUnit<KnownUnit>,
    u: UnitId,
) -> Result<Option<(Groups, Bytes)>, AllocError>
    requires small { IsSmall plain.now }
    requires live { length x.now.live ≡ length (known_meaning x.now.unit).offers }
    ensures { IfOk result (λ made. IfSome made (λ p. IsFinish (meant known_meaning plain.now) u (unit_row known_meaning x.now) p.0 p.1)) }
{
    if is_refused(x) {
        return Ok(None);
    }
    let groups = groups(alloc, plain, x, u)?;
    let bytes = image(alloc, x)?;
    Ok(Some((groups, bytes)))
}

/// What an emit by the seat hands in: nothing, where it is turned away.
fn to_emit(
    alloc: Global,
    shadow: &Shadow,
    s: SeatNo,
    u: UnitId,
) -> Result<Option<(Groups, Bytes)>, AllocError>
    requires { IsShadow shadow.now }
    ensures { IfOk result (λ made. IfSome made (λ p. MayEmit (meant known_meaning shadow.now.plain) s.0 u p.0 p.1)) }
{
    shadow.suits();
    let nothing = (Items::new(alloc), Bytes::new(alloc));
    let Some(x) = unit_there(&shadow.plain, u) else {
        return Ok(Some(nothing));
    };
    if turn_away(x, s, u, emit_is_next(x)).is_some() {
        return Ok(Some(nothing));
    }
    finished(alloc, &shadow.plain, x, u)
}

/// Whether the seat may give the unit up for this cause, or is turned away.
fn may_fail(
    jmax: u64,
    journal: &[Entry<KnownUnit>],
    shadow: &Shadow,
    s: SeatNo,
    u: UnitId,
    why: Why,
) -> bool
    requires { Follows journal.now shadow.now }
    ensures { OnTrue result (MayFail jmax (plain_history known_meaning journal.now) (meant known_meaning shadow.now.plain) s.0 u why) }
{
    shadow.suits();
    let Some(x) = unit_there(&shadow.plain, u) else {
        return true;
    };
    if turn_away(x, s, u, true).is_some() {
        return true;
    }
    let refusal = x
        .unit
        .refusal(x.live.as_slice(), x.base.unwrap_or(0), bindings(x));
    has_cause(
        jmax,
        journal,
        &shadow.plain,
        &shadow.ends,
        u,
        x,
        refusal,
        why,
    )
}

/// An emit with the unit's own groups and bytes.
fn fit_emit(
    alloc: Global,
    shadow: &Shadow,
    s: SeatNo,
    u: UnitId,
) -> Result<Option<Call<KnownUnit>>, AllocError>
    requires { IsShadow shadow.now }
    ensures { (jmax : ℕ) (h : List (Entry Known)) → Follows h shadow.now → IfOk result (λ made. IfSome made (Fits known_meaning jmax h s)) }
{
    let Some((groups, bytes)) = to_emit(alloc, shadow, s, u)? else {
        return Ok(None);
    };
    Ok(Some(Call::Emit(u, groups, bytes)))
}

/// Whether anybody may make the call as it is. A place or an emit isn't given its own arguments yet.
fn may_be_made(
    jmax: u64,
    journal: &[Entry<KnownUnit>],
    shadow: &Shadow,
    s: SeatNo,
    call: &Call<KnownUnit>,
) -> bool
    requires { Follows journal.now shadow.now }
    ensures { OnTrue result (Fits known_meaning jmax journal.now s call.now) }
{
    match call {
        Call::SetOrder(_, order) => order.len() <= ORDER_LIMIT,
        Call::Ask(order, wanted, _) => order.len() <= ORDER_LIMIT && wanted.len() <= WANTED_LIMIT,
        Call::Attach(_, _, unit) => source_known(&shadow.plain, unit),
        Call::Define(_, _, unit) => source_known(&shadow.plain, unit),
        Call::Fail(u, why) => may_fail(jmax, journal, shadow, s, *u, *why),
        Call::Place(_, _) => false,
        Call::Emit(_, _, _) => false,
        Call::Dylib(_) => true,
        Call::Generate(_) => true,
        Call::Collect(_) => true,
        Call::Take => true,
        Call::Resolve(_) => true,
        Call::Tracker(_) => true,
        Call::MoveTracker(_, _) => true,
        Call::Remove(_) => true,
        Call::Image => true,
        Call::Link(_) => true,
    }
}

/// The call, if anybody may make it as it is.
fn as_it_is(
    jmax: u64,
    journal: &[Entry<KnownUnit>],
    shadow: &Shadow,
    s: SeatNo,
    call: Call<KnownUnit>,
) -> Option<Call<KnownUnit>>
    requires { Follows journal.now shadow.now }
    ensures { IfSome result (Fits known_meaning jmax journal.now s) }
{
    if may_be_made(jmax, journal, shadow, s, &call) {
        Some(call)
    } else {
        None
    }
}

/// The call, with what the session asks of its arguments; none where nobody may make it.
pub fn fit(
    alloc: Global,
    jmax: u64,
    journal: &[Entry<KnownUnit>],
    shadow: &Shadow,
    s: SeatNo,
    call: Call<KnownUnit>,
) -> Result<Option<Call<KnownUnit>>, AllocError>
    requires { Follows journal.now shadow.now }
    ensures { IfOk result (λ made. IfSome made (Fits known_meaning jmax journal.now s)) }
{
    match call {
        Call::Place(u, _) => Ok(Some(Call::Place(u, own_shape(shadow, u)))),
        Call::Emit(u, _, _) => fit_emit(alloc, shadow, s, u),
        other => Ok(as_it_is(jmax, journal, shadow, s, other)),
    }
}
