//! A unit that is given up.

ghost use Rattle.std.specs.Prelude.{◌≡◌, ◌≤◌, false, nat_eq, slice_get};
ghost use Rattle.std.specs.Option.{option_map_or};
ghost use Rattle.mat_unit.specs.declared.unit.Unit.{Unit as OneUnit};
ghost use Rattle.session_model.specs.Plain.{Plain};
ghost use Rattle.session_model.specs.History.{places};
ghost use Rattle.session_model.specs.declared.entry.Event.TheVariants as event;
ghost use Rattle.session_model.specs.declared.entry.Why.{Why};
ghost use Rattle.session_parts.specs.Parts.{AreParts};
ghost use Rattle.session_steps.specs.Gives.{GivesUp};
ghost use Rattle.session_steps.specs.Stands.{Stands};

use crate::live::Live;
use mat_unit::Units;
use orc_ids::{SeatNo, UnitId};
use orc_io::Notify;
use session_model::{Reply, UnitKind, Why};
use session_replies::{Call, turn_away};

/// Whether the seat holds the unit.
fn is_held<U: UnitKind>(units: &Units<U>, s: SeatNo, u: UnitId) -> bool
    ensures { result ≡ option_map_or (λ (x : OneUnit U). option_map_or (nat_eq s.0) x.seat false) (slice_get units.now.units u.0) false }
{
    match units.get(u) {
        Some(unit) => unit.seat == Some(s.0),
        None => false,
    }
}

impl<U: UnitKind, N: Notify> Live<U, N> {
    /// How many places the seat's fail of the unit takes: none where it holds it.
    pub fn places_to_fail(&self, s: SeatNo, u: UnitId) -> usize
        ghost m: { Plain }
        requires parts { AreParts U.meaning self.now.parts m }
        ensures places { (why : Why) → result ≡ places m s.0 (event.Fail u why) }
        ensures few { result ≤ 2 }
    {
        if is_held(&self.parts.units, s, u) {
            0
        } else {
            1
        }
    }

    /// The unit fails, and what reaches it; or the call is turned away. Takes no memory.
    pub fn fail_unit(&mut self, s: SeatNo, u: UnitId) -> Reply
        ghost m: { Plain }
        requires stands { Stands U.meaning m self.old.parts }
        ensures step { (why : Why) → GivesUp U.meaning m s.0 u why result self.old.parts self.new.parts }
        ensures rest { self.new ≡ record self.old { parts = self.new.parts } }
    {
        if let Some(reply) = turn_away(&self.parts, s, u, Call::Fail) {
            self.step_away(s, u, &reply);
            return reply;
        }
        self.parts.fail(u);
        Reply::Failed
    }
}
