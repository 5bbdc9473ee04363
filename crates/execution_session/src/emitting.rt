//! Units whose bytes are put into memory.

ghost use Rattle.session_model.specs.declared.entry.Event.TheVariants as event;
ghost use Rattle.session_steps.specs.Allowed.{MayEmit};
ghost use Rattle.session_steps.specs.Fires.{FiresBy};
ghost use Rattle.session_steps.specs.Performs.{Performs, state_of};

use crate::answering::{enter_telling, stopped};
use crate::places::check_places;
use crate::session::{Session, Told};
use orc_ids::{Bytes, Groups, SeatNo, Stop, UnitId};
use orc_io::Notify;
use session_model::{Event, UnitKind};

impl<U: UnitKind, N: Notify, const JMAX: usize> Session<U, N, JMAX> {
    /// Puts the unit's bytes into memory, with its dependence groups (ORC: `notifyEmitted`). The groups
    /// and the bytes are the unit's for its live names, its base and its bindings, and no edge of it is
    /// out of range.
    pub fn emit(&mut self, s: SeatNo, u: UnitId, groups: Groups, bytes: Bytes) -> Told<N>
        requires finish { MayEmit (state_of U.meaning self.old.journal) s.0 u groups bytes }
        ensures performs { Performs U.meaning JMAX self.old.journal self.new.journal s (event.Emit u groups) result.answer }
        ensures fires { FiresBy U.meaning result.answer self.old self.new result.fires }
    {
        if let Err(stop) = check_places::<U, N, JMAX>(&self.live, 1) {
            return stopped(stop);
        }
        let Ok(reply) = self.live.emit_unit(s, u, groups.as_slice(), bytes) else {
            return stopped(Stop::NoMemory);
        };
        enter_telling::<U, N, JMAX>(&mut self.live, s, Event::Emit(u, groups), reply)
    }
}
