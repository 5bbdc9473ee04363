ghost use Rattle.std.specs.Prelude.{◌≡◌, map, unwrap_or, []};
ghost use Rattle.session_model.specs.Lists.{changed_at, first_some};
ghost use Rattle.session_model.specs.Plain.{is_alias};
ghost use Rattle.session_model.specs.Change.{bindings_of, let_go_unit, resolved_unit, target_address};
ghost use Rattle.session_plain.specs.Meant.{unit_row};
ghost use Rattle.session_plain.specs.Bound.{bound_address};
ghost use Rattle.session_plain.specs.Units.{stepped};

use crate::plain::PlainUnit;
use orc_ids::{InstId, SeatNo, UnitId};
use session_model::{Finishing, Matches, UnitKind, UnitPhase};

/// A step in the life of a unit.
#[derive(Drop)]
pub enum Step {
    /// Its job Start is listed.
    List,
    /// The seat took its job Start.
    Start(SeatNo),
    /// It has this base.
    Place(u64),
    /// Its instances have addresses.
    Resolve,
    /// It waits for the query of this number.
    Wait(u32),
    /// Its job Finish is listed.
    Link,
    /// The seat took its job Finish.
    Finish(SeatNo, Finishing),
    /// Its bytes are in memory.
    End,
    /// It was given up.
    Fail,
    /// The seat no longer holds it.
    LetGo(SeatNo),
}

/// Whether the unit stands for a name in another dylib.
pub fn alias<U: UnitKind>(x: &PlainUnit<U>) -> bool
    ensures { result ≡ is_alias (unit_row U.meaning x.now) }
{
    x.unit.source().is_some()
}

/// What the unit's externals are bound to; nothing before they are.
pub fn bindings<U: UnitKind>(x: &PlainUnit<U>) -> &[Option<(InstId, u64)>]
    ensures { result.now ≡ unwrap_or x.now.bound [] }
{
    match &x.bound {
        Some(bound) => bound.as_slice(),
        None => &[],
    }
}

fn first_address(bound: &[Option<(InstId, u64)>]) -> u64
    ensures { result ≡ unwrap_or (first_some bound_address bound.now) 0 }
{
    for found in bound {
        if let Some((_, address)) = found {
            return *address;
        }
    }
    0
}

/// The address that the unit was bound to.
pub fn bound_to<U: UnitKind>(x: &PlainUnit<U>) -> u64
    ensures { result ≡ target_address (unit_row U.meaning x.now) }
{
    first_address(bindings(x))
}

fn resolve_unit<U: UnitKind>(x: &mut PlainUnit<U>)
    ensures { unit_row U.meaning x.new ≡ resolved_unit (unit_row U.meaning x.old) }
{
    if alias(x) {
        let base = bound_to(x);
        x.base = Some(base);
    } else {
        x.phase = UnitPhase::Linking;
    }
}

fn bound_by(how: Finishing) -> Option<Matches>
    ensures { result ≡ bindings_of how }
{
    match how {
        Finishing::Bound(found) => Some(found),
        Finishing::Lost(_) => None,
    }
}

fn release_unit<U: UnitKind>(x: &mut PlainUnit<U>, seat: SeatNo)
    ensures { unit_row U.meaning x.new ≡ let_go_unit seat.0 (unit_row U.meaning x.old) }
{
    if let Some(holder) = x.seat {
        if holder == seat.0 {
            x.seat = None;
        }
    }
}

fn step_unit<U: UnitKind>(x: &mut PlainUnit<U>, step: Step)
    ensures { unit_row U.meaning x.new ≡ stepped step (unit_row U.meaning x.old) }
{
    match step {
        Step::List => x.phase = UnitPhase::Listed,
        Step::Start(seat) => {
            x.phase = UnitPhase::Started;
            x.seat = Some(seat.0);
        }
        Step::Place(base) => {
            x.phase = UnitPhase::Placed;
            x.base = Some(base);
        }
        Step::Resolve => resolve_unit(x),
        Step::Wait(query) => {
            x.phase = UnitPhase::Waiting;
            x.seat = None;
            x.query = Some(query);
        }
        Step::Link => x.phase = UnitPhase::Linked,
        Step::Finish(seat, how) => {
            x.phase = UnitPhase::Finishing;
            x.seat = Some(seat.0);
            x.bound = bound_by(how);
        }
        Step::End => {
            x.phase = UnitPhase::Done;
            x.seat = None;
        }
        Step::Fail => {
            x.phase = UnitPhase::Failed;
            x.seat = None;
            x.base = None;
        }
        Step::LetGo(seat) => release_unit(x, seat),
    }
}

/// The unit takes the step, if there is one of this number.
#[tactic(auto, using(crate::proofs::ListLemmas::map_set, crate::proofs::ListLemmas::map_past))]
pub fn step_in<U: UnitKind>(units: &mut Vec<PlainUnit<U>>, u: UnitId, step: Step)
    ensures { map (unit_row U.meaning) units.new.items ≡ changed_at u.0 (stepped step) (map (unit_row U.meaning) units.old.items) }
{
    if (u.0 as usize) < units.as_slice().len() {
        step_unit(&mut units[u.0 as usize], step);
    }
}
