//! Trackers that are removed.

ghost use Rattle.std.specs.Prelude.{◌≡◌, Err};
ghost use Rattle.orc_ids.specs.declared.lookup.Stop.TheVariants.{NoMemory};
ghost use Rattle.session_model.specs.declared.entry.Event.TheVariants as event;
ghost use Rattle.session_steps.specs.Fires.{FiresBy};
ghost use Rattle.session_steps.specs.Performs.{Performs};

use crate::answering::{enter_telling, stopped};
use crate::places::check_places;
use crate::session::{Session, Told};
use orc_ids::{SeatNo, TrackId};
use orc_io::Notify;
use session_model::{Event, UnitKind};

impl<U: UnitKind, N: Notify, const JMAX: usize> Session<U, N, JMAX> {
    /// Removes all that the tracker has: its units with their names, jobs and ranges, and its generators
    /// (ORC: `ResourceTracker::remove`). Takes no memory.
    pub fn remove(&mut self, s: SeatNo, t: TrackId) -> Told<N>
        ensures performs { Performs U.meaning JMAX self.old.journal self.new.journal s (event.Remove t) result.answer }
        ensures fires { FiresBy U.meaning result.answer self.old self.new result.fires }
        ensures memory { result.answer ≡ Err NoMemory → ⊥ }
    {
        if let Err(stop) = check_places::<U, N, JMAX>(&self.live, 1) {
            return stopped(stop);
        }
        let reply = self.live.remove_tracker(t);
        enter_telling::<U, N, JMAX>(&mut self.live, s, Event::Remove(t), reply)
    }
}
