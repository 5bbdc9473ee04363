//! Units that get a range of code memory.

ghost use Rattle.std.specs.Prelude.{◌≡◌, IfOk};
ghost use Rattle.session_model.specs.declared.entry.Event.TheVariants as event;
ghost use Rattle.session_steps.specs.Allowed.{MayPlace};
ghost use Rattle.session_steps.specs.Performs.{Performs, state_of};
ghost use Rattle.session_steps.specs.Handed.{IsLowest};

use crate::entering::enter_quietly;
use crate::places::check_places;
use crate::session::Session;
use orc_ids::{SeatNo, Shape, Stop, UnitId};
use orc_io::Notify;
use session_model::{Event, Reply, UnitKind};

impl<U: UnitKind, N: Notify, const JMAX: usize> Session<U, N, JMAX> {
    /// Places the unit at the lowest free base for its shape (ORC: `JITLinkMemoryManager::allocate`).
    pub fn place(&mut self, s: SeatNo, u: UnitId, shape: Shape) -> Result<Reply, Stop>
        requires { MayPlace (state_of U.meaning self.old.journal) s.0 u shape }
        ensures performs { Performs U.meaning JMAX self.old.journal self.new.journal s (event.Place u shape) result }
        ensures lowest { IfOk result (λ r. IsLowest (state_of U.meaning self.old.journal) shape r) }
        ensures armed { self.new.armed ≡ self.old.armed }
    {
        check_places::<U, N, JMAX>(&self.live, 1)?;
        let Ok(reply) = self.live.place_unit(s, u, shape) else {
            return Err(Stop::NoMemory);
        };
        Ok(enter_quietly::<U, N, JMAX>(&mut self.live, s, Event::Place(u, shape), reply))
    }
}
