//! A unit's symbols that get addresses.

ghost use Rattle.std.specs.Prelude.{◌≡◌};
ghost use Rattle.session_model.specs.Plain.{Plain};
ghost use Rattle.session_model.specs.declared.entry.Event.TheVariants as event;
ghost use Rattle.session_steps.specs.Stands.{Stands};
ghost use Rattle.session_steps.specs.Steps.{IsTellingStep};

use crate::live::Live;
use orc_ids::{SeatNo, UnitId};
use orc_io::Notify;
use session_model::{Reply, UnitKind};
use session_replies::{Call, turn_away};

impl<U: UnitKind, N: Notify> Live<U, N> {
    /// The unit's instances get their addresses, or the call is turned away. Takes no memory.
    pub fn resolve_unit(&mut self, s: SeatNo, u: UnitId) -> Reply
        ghost m: { Plain }
        requires stands { Stands U.meaning m self.old.parts }
        ensures step { IsTellingStep U.meaning m s.0 (event.Resolve u) result self.old.parts self.new.parts }
        ensures rest { self.new ≡ record self.old { parts = self.new.parts } }
    {
        if let Some(reply) = turn_away(&self.parts, s, u, Call::Resolve) {
            self.step_away(s, u, &reply);
            return reply;
        }
        self.parts.resolve(u);
        Reply::Resolved
    }
}
