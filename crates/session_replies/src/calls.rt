//! Calls on a unit that is gone, that isn't at the phase of the call, or that another seat holds.

ghost use Rattle.std.specs.Prelude.{◌≡◌, ℕ, is_some, slice_get, option_map, IfSome, IfNone};
ghost use Rattle.session_model.specs.Plain.{Plain, UnitRow, unit_shape};
ghost use Rattle.session_model.specs.Answer.{Right, called, is_held, is_stage, can_place, can_resolve, can_link, can_emit};
ghost use Rattle.session_model.specs.declared.rows.UnitPhase.TheVariants as stage;
ghost use Rattle.session_parts.specs.Parts.{AreParts};
ghost use Rattle.session_replies.specs.Turned.{fits, seen, turned_away, wrong_call, HasFlags, HaveFlags, IsTurned};

use mat_unit::{Unit, Units};
use orc_ids::{SeatNo, Shape, UnitId};
use orc_io::Notify;
use session_model::{Reply, UnitKind, UnitPhase};
use session_parts::Parts;

/// A call on a unit by the seat that holds it.
#[derive(Clone, Copy)]
pub enum Call {
    Place,
    Resolve,
    Link,
    Emit,
    Fail,
}

fn is_started(phase: UnitPhase) -> bool
    ensures { result ≡ is_stage stage.Started phase }
{
    matches!(phase, UnitPhase::Started)
}

fn is_placed(phase: UnitPhase) -> bool
    ensures { result ≡ is_stage stage.Placed phase }
{
    matches!(phase, UnitPhase::Placed)
}

fn is_linking(phase: UnitPhase) -> bool
    ensures { result ≡ is_stage stage.Linking phase }
{
    matches!(phase, UnitPhase::Linking)
}

fn is_finishing(phase: UnitPhase) -> bool
    ensures { result ≡ is_stage stage.Finishing phase }
{
    matches!(phase, UnitPhase::Finishing)
}

/// Whether the unit is an alias, which looks its target up in a dylib of its own choice.
fn is_alias<U: UnitKind>(unit: &Unit<U>) -> bool
    ensures { result ≡ is_some (U.meaning unit.now.unit).source }
{
    unit.unit.source().is_some()
}

/// The memory that the unit needs; an alias needs none.
fn shape_of<U: UnitKind>(unit: &Unit<U>) -> Option<Shape>
    requires { HasFlags U.meaning unit.now }
    ensures { result ≡ unit_shape (seen U.meaning unit.now) }
{
    if is_alias(unit) {
        None
    } else {
        unit.unit.shape(unit.live.as_slice())
    }
}

fn can_place<U: UnitKind>(unit: &Unit<U>) -> bool
    requires { HasFlags U.meaning unit.now }
    ensures { result ≡ can_place (seen U.meaning unit.now) }
{
    is_started(unit.phase) && shape_of(unit).is_some()
}

/// Whether the unit may be resolved; an alias once it is bound, and once.
fn can_resolve<U: UnitKind>(unit: &Unit<U>) -> bool
    requires { HasFlags U.meaning unit.now }
    ensures { result ≡ can_resolve (seen U.meaning unit.now) }
{
    if is_alias(unit) {
        is_finishing(unit.phase) && unit.bound.is_some() && unit.base.is_none()
    } else {
        is_placed(unit.phase) || is_started(unit.phase) && shape_of(unit).is_none()
    }
}

/// Whether the unit may be linked; an alias before it has an address.
fn can_link<U: UnitKind>(unit: &Unit<U>) -> bool
    ensures { result ≡ can_link (seen U.meaning unit.now) }
{
    if is_alias(unit) {
        is_started(unit.phase)
    } else {
        is_linking(unit.phase)
    }
}

/// Whether the unit may be emitted; an alias after it was resolved.
fn can_emit<U: UnitKind>(unit: &Unit<U>) -> bool
    ensures { result ≡ can_emit (seen U.meaning unit.now) }
{
    is_finishing(unit.phase) && unit.bound.is_some() && (!is_alias(unit) || unit.base.is_some())
}

impl Call {
    /// Whether the unit is at the phase of the call.
    fn fits<U: UnitKind>(self, unit: &Unit<U>) -> bool
        requires { HasFlags U.meaning unit.now }
        ensures { result ≡ fits self (seen U.meaning unit.now) }
    {
        match self {
            Call::Place => can_place(unit),
            Call::Resolve => can_resolve(unit),
            Call::Link => can_link(unit),
            Call::Emit => can_emit(unit),
            Call::Fail => true,
        }
    }
}

/// Whether the seat holds the unit.
fn is_held<U: UnitKind>(unit: &Unit<U>, s: SeatNo) -> bool
    ensures { result ≡ is_held s.0 (seen U.meaning unit.now) }
{
    unit.seat == Some(s.0)
}

/// The answer of a call on this unit that is gone, or at which the call isn't right.
fn turned_from<U: UnitKind>(unit: &Unit<U>, s: SeatNo, u: UnitId, fits: bool) -> Option<Reply>
    ensures { result ≡ turned_away s.0 u fits (seen U.meaning unit.now) }
{
    if matches!(unit.phase, UnitPhase::Defunct) {
        Some(Reply::Defunct(u))
    } else if is_held(unit, s) && fits {
        None
    } else {
        Some(Reply::WrongPhase(u))
    }
}

/// The same of the unit of this number.
fn turned_by<U: UnitKind>(units: &Units<U>, s: SeatNo, u: UnitId, call: Call) -> Option<Reply>
    requires { HaveFlags U.meaning units.now.units }
    ensures { result ≡ wrong_call s.0 u (fits call) (option_map (seen U.meaning) (slice_get units.now.units u.0)) }
{
    match units.get(u) {
        Some(unit) => turned_from(unit, s, u, call.fits(unit)),
        None => Some(Reply::WrongPhase(u)),
    }
}

/// The answer of the seat's call where it isn't right: the unit is gone, or it isn't at the phase of the
/// call or not held by the seat.
pub fn turn_away<U: UnitKind, N: Notify>(
    parts: &Parts<U, N>,
    s: SeatNo,
    u: UnitId,
    call: Call,
) -> Option<Reply>
    ghost m: { Plain }
    requires parts { AreParts U.meaning parts.now m }
    ensures right { IfNone result ((x : UnitRow) × (called m s.0 u (fits call) ≡ Right x)) }
    ensures turned { IfSome result (IsTurned m s.0 u (fits call)) }
{
    turned_by(&parts.units, s, u, call)
}
