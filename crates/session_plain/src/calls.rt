ghost use Rattle.std.specs.Prelude.{◌≡◌, ◌<◌, ◌∷◌, [], length, map, slice_get, option_map, IfSome};
ghost use Rattle.session_model.specs.Plain.{unit_shape};
ghost use Rattle.session_model.specs.Answer.{AnswersCall, called, is_held, is_stage, can_place, can_resolve, can_link, can_emit, bad_dep, first_reply};
ghost use Rattle.session_model.specs.Lists.{first_some};
ghost use Rattle.session_model.specs.declared.rows.UnitPhase.TheVariants as stage;
ghost use Rattle.session_plain.specs.Calls.{turned_away, is_bad_dep, bad_dep_of, bad_in_group, call_reply};
ghost use Rattle.session_plain.specs.Meant.{meant, unit_row, LiveFit};

use crate::plain::{PlainSession, PlainUnit};
use crate::query::{row_failed, row_present, row_unsearched};
use crate::units::alias;
use orc_ids::{Group, InstId, SeatNo, Shape, UnitId};
use session_model::{InstRow, Reply, UnitKind, UnitPhase};

/// The unit of this number, in a list of units.
pub fn unit_at<U: UnitKind>(units: &[PlainUnit<U>], u: UnitId) -> Option<&PlainUnit<U>>
    ensures row { option_map (λ x. unit_row U.meaning x.now) result ≡ slice_get (map (unit_row U.meaning) units.now) u.0 }
    ensures there { IfSome result (λ x. slice_get units.now u.0 ≡ Some x.now) }
{
    units.get(u.0 as usize)
}

/// The unit of this number.
pub fn unit_there<U: UnitKind>(s: &PlainSession<U>, u: UnitId) -> Option<&PlainUnit<U>>
    ensures row { option_map (λ x. unit_row U.meaning x.now) result ≡ slice_get (meant U.meaning s.now).units u.0 }
    ensures there { IfSome result (λ x. slice_get s.now.units.items u.0 ≡ Some x.now) }
{
    unit_at(&s.units, u)
}

fn holds<U: UnitKind>(x: &PlainUnit<U>, seat: SeatNo) -> bool
    ensures { result ≡ is_held seat.0 (unit_row U.meaning x.now) }
{
    match x.seat {
        Some(holder) => seat.0 == holder,
        None => false,
    }
}

/// The answer of a call on a unit that is gone, or at which the call isn't right.
pub fn turn_away<U: UnitKind>(
    x: &PlainUnit<U>,
    seat: SeatNo,
    u: UnitId,
    fits: bool,
) -> Option<Reply>
    ensures { result ≡ turned_away seat.0 u fits (unit_row U.meaning x.now) }
{
    if matches!(x.phase, UnitPhase::Defunct) {
        Some(Reply::Defunct(u))
    } else if holds(x, seat) && fits {
        None
    } else {
        Some(Reply::WrongPhase(u))
    }
}

fn is_started(phase: UnitPhase) -> bool
    ensures { result ≡ is_stage stage.Started phase }
{
    matches!(phase, UnitPhase::Started)
}

fn is_placed(phase: UnitPhase) -> bool
    ensures { result ≡ is_stage stage.Placed phase }
{
    matches!(phase, UnitPhase::Placed)
}

fn is_linking(phase: UnitPhase) -> bool
    ensures { result ≡ is_stage stage.Linking phase }
{
    matches!(phase, UnitPhase::Linking)
}

/// Whether the unit's job Finish was handed out.
pub fn is_finishing(phase: UnitPhase) -> bool
    ensures { result ≡ is_stage stage.Finishing phase }
{
    matches!(phase, UnitPhase::Finishing)
}

/// The memory that the unit needs.
pub fn shape_of<U: UnitKind>(x: &PlainUnit<U>) -> Option<Shape>
    requires { length x.now.live ≡ length (U.meaning x.now.unit).offers }
    ensures { result ≡ unit_shape (unit_row U.meaning x.now) }
{
    if alias(x) {
        None
    } else {
        x.unit.shape(x.live.as_slice())
    }
}

/// Whether the unit may be placed now.
pub fn place_is_next<U: UnitKind>(x: &PlainUnit<U>) -> bool
    requires { length x.now.live ≡ length (U.meaning x.now.unit).offers }
    ensures { result ≡ can_place (unit_row U.meaning x.now) }
{
    is_started(x.phase) && shape_of(x).is_some()
}

/// Whether the unit may be resolved now.
fn resolve_is_next<U: UnitKind>(x: &PlainUnit<U>) -> bool
    requires { length x.now.live ≡ length (U.meaning x.now.unit).offers }
    ensures { result ≡ can_resolve (unit_row U.meaning x.now) }
{
    if alias(x) {
        is_finishing(x.phase) && x.bound.is_some() && x.base.is_none()
    } else {
        is_placed(x.phase) || is_started(x.phase) && shape_of(x).is_none()
    }
}

/// Whether the unit's externals may be looked up now.
pub fn link_is_next<U: UnitKind>(x: &PlainUnit<U>) -> bool
    ensures { result ≡ can_link (unit_row U.meaning x.now) }
{
    if alias(x) {
        is_started(x.phase)
    } else {
        is_linking(x.phase)
    }
}

/// Whether the unit may be emitted now.
pub fn emit_is_next<U: UnitKind>(x: &PlainUnit<U>) -> bool
    ensures { result ≡ can_emit (unit_row U.meaning x.now) }
{
    is_finishing(x.phase) && x.bound.is_some() && (!alias(x) || x.base.is_some())
}

fn answer_resolve<U: UnitKind>(s: &PlainSession<U>, seat: SeatNo, u: UnitId) -> Reply
    requires { LiveFit U.meaning s.now.units.items }
    ensures { result ≡ call_reply seat.0 u can_resolve Reply.Resolved (slice_get (meant U.meaning s.now).units u.0) }
{
    match s.units.get(u.0 as usize) {
        None => Reply::WrongPhase(u),
        Some(x) => turn_away(x, seat, u, resolve_is_next(x)).unwrap_or(Reply::Resolved),
    }
}

/// What resolving a unit is answered.
pub fn reply_resolve<U: UnitKind>(s: &PlainSession<U>, seat: SeatNo, u: UnitId) -> Reply
    requires { LiveFit U.meaning s.now.units.items }
    ensures { AnswersCall (called (meant U.meaning s.now) seat.0 u can_resolve) u (λ x. result ≡ Reply.Resolved) result }
{
    answer_resolve(s, seat, u)
}

/// Whether an instance can't be depended on.
fn is_bad(rows: &[InstRow], i: InstId) -> bool
    ensures { result ≡ is_bad_dep rows.now i }
{
    row_failed(rows, i) || !row_present(rows, i) || row_unsearched(rows, i)
}

fn bad_in(rows: &[InstRow], deps: &[InstId]) -> Option<Reply>
    ensures { result ≡ first_some (bad_dep_of rows.now) deps.now }
{
    for i in deps {
        if is_bad(rows, *i) {
            return Some(Reply::BadDep(*i));
        }
    }
    None
}

fn first_bad(rows: &[InstRow], groups: &[Group]) -> Option<Reply>
    ensures { result ≡ first_some (bad_in_group rows.now) groups.now }
{
    for g in groups {
        let bad = bad_in(rows, g.deps.as_slice());
        if bad.is_some() {
            return bad;
        }
    }
    None
}

/// The answer BadDep for the first dependency, in group order, that can't be depended on.
fn bad_dependency(rows: &[InstRow], groups: &[Group]) -> Option<Reply>
    ensures { result ≡ bad_dep rows.now groups.now }
{
    first_bad(rows, groups)
}

/// What emitting is answered once the call is right: by the dependencies of the groups.
pub fn reply_by_deps(rows: &[InstRow], groups: &[Group]) -> Reply
    ensures { result ≡ first_reply (bad_dep rows.now groups.now ∷ []) Reply.Emitted }
{
    bad_dependency(rows, groups).unwrap_or(Reply::Emitted)
}
