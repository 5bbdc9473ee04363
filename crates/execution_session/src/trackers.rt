//! Trackers that are made, and what goes from one to another.

ghost use Rattle.std.specs.Prelude.{◌≡◌};
ghost use Rattle.session_model.specs.declared.entry.Event.TheVariants as event;
ghost use Rattle.session_steps.specs.Performs.{Performs};

use crate::entering::enter_quietly;
use crate::places::check_places;
use crate::session::Session;
use orc_ids::{DylibId, SeatNo, Stop, TrackId};
use orc_io::Notify;
use session_model::{Event, Reply, UnitKind};

impl<U: UnitKind, N: Notify, const JMAX: usize> Session<U, N, JMAX> {
    /// Makes a tracker of the dylib (ORC: `JITDylib::createResourceTracker`).
    pub fn tracker(&mut self, s: SeatNo, d: DylibId) -> Result<Reply, Stop>
        ensures performs { Performs U.meaning JMAX self.old.journal self.new.journal s (event.Tracker d) result }
        ensures armed { self.new.armed ≡ self.old.armed }
    {
        check_places::<U, N, JMAX>(&self.live, 1)?;
        let Ok(reply) = self.live.make_tracker(d) else {
            return Err(Stop::NoMemory);
        };
        Ok(enter_quietly::<U, N, JMAX>(&mut self.live, s, Event::Tracker(d), reply))
    }

    /// All that the first tracker has belongs to the second, in constant time (ORC:
    /// `ResourceTracker::transferTo`).
    pub fn move_tracker(&mut self, s: SeatNo, t: TrackId, to: TrackId) -> Result<Reply, Stop>
        ensures performs { Performs U.meaning JMAX self.old.journal self.new.journal s (event.MoveTracker t to) result }
        ensures armed { self.new.armed ≡ self.old.armed }
    {
        check_places::<U, N, JMAX>(&self.live, 1)?;
        let Ok(reply) = self.live.move_all(t, to) else {
            return Err(Stop::NoMemory);
        };
        Ok(enter_quietly::<U, N, JMAX>(&mut self.live, s, Event::MoveTracker(t, to), reply))
    }
}
