//! Units that are given up.

ghost use Rattle.std.specs.Prelude.{◌≡◌, slice_get, Some, Err, IsOk};
ghost use Rattle.orc_ids.specs.declared.lookup.Stop.TheVariants.{NoMemory};
ghost use Rattle.session_model.specs.Plain.{UnitRow};
ghost use Rattle.session_model.specs.State.{plain_history};
ghost use Rattle.session_model.specs.declared.entry.Event.TheVariants as event;
ghost use Rattle.session_steps.specs.Allowed.{MayFail};
ghost use Rattle.session_steps.specs.Fires.{FiresBy};
ghost use Rattle.session_steps.specs.Performs.{Performs, state_of};

use crate::answering::{enter_telling, stopped};
use crate::places::check_places;
use crate::session::{Session, Told};
use orc_ids::{SeatNo, UnitId};
use orc_io::Notify;
use session_model::{Event, UnitKind, Why};

impl<U: UnitKind, N: Notify, const JMAX: usize> Session<U, N, JMAX> {
    /// Gives the unit up, for this cause (ORC: `failMaterialization`). Takes no memory, and the seat that
    /// holds the unit is never stopped.
    pub fn fail(&mut self, s: SeatNo, u: UnitId, why: Why) -> Told<N>
        requires cause { MayFail JMAX (plain_history U.meaning self.old.journal) (state_of U.meaning self.old.journal) s.0 u why }
        ensures performs { Performs U.meaning JMAX self.old.journal self.new.journal s (event.Fail u why) result.answer }
        ensures fires { FiresBy U.meaning result.answer self.old self.new result.fires }
        ensures memory { result.answer ≡ Err NoMemory → ⊥ }
        ensures held { (x : UnitRow) → slice_get (state_of U.meaning self.old.journal).units u.0 ≡ Some x → x.seat ≡ Some s.0 → IsOk result.answer }
    {
        let places = self.live.places_to_fail(s, u);
        if let Err(stop) = check_places::<U, N, JMAX>(&self.live, places) {
            return stopped(stop);
        }
        let reply = self.live.fail_unit(s, u);
        enter_telling::<U, N, JMAX>(&mut self.live, s, Event::Fail(u, why), reply)
    }
}
