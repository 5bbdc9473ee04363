//! Trackers.

use crate::home::Home;
use execution_session::Told;
use orc_ids::{DylibId, SeatNo, Stop, TrackId};
use orc_io::Notify;
use session_model::{Reply, UnitKind};
use turn_lock::Call;

/// Makes a tracker of a dylib.
#[derive(Drop)]
pub struct MakeTracker {
    pub dylib: DylibId,
}

impl<U: UnitKind, N: Notify, const JMAX: usize> Call<Home<U, N, JMAX>> for MakeTracker {
    ghost use Rattle.session_model.specs.declared.entry.Event.TheVariants as event;
    ghost use Rattle.session_steps.specs.Performs.{Performs};
    ghost use Rattle.shared_session.specs.Does.{seat};
    ghost use Rattle.shared_session.specs.Single.{performed_once};

    type Answer = Result<Reply, Stop>;

    ghost may = { λ c s h. Unit {0} };

    ghost does = { λ c s old new a. Performs U.meaning JMAX old new (seat s) (event.Tracker c.dylib) a };

    fn make(self, home: &mut Home<U, N, JMAX>, seat: u32) -> Result<Reply, Stop> {
        home.session.tracker(SeatNo(seat), self.dylib)
    }

    ghost stays_allowed = { λ c s h more lawful others may. may };

    ghost one_at_most = { λ c s old new a did. performed_once U.meaning JMAX s old new _ a did };
}

/// Moves all that a tracker has to another one.
#[derive(Drop)]
pub struct MoveTracker {
    pub from: TrackId,
    pub to: TrackId,
}

impl<U: UnitKind, N: Notify, const JMAX: usize> Call<Home<U, N, JMAX>> for MoveTracker {
    ghost use Rattle.session_model.specs.declared.entry.Event.TheVariants as event;
    ghost use Rattle.session_steps.specs.Performs.{Performs};
    ghost use Rattle.shared_session.specs.Does.{seat};
    ghost use Rattle.shared_session.specs.Single.{performed_once};

    type Answer = Result<Reply, Stop>;

    ghost may = { λ c s h. Unit {0} };

    ghost does = { λ c s old new a. Performs U.meaning JMAX old new (seat s) (event.MoveTracker c.from c.to) a };

    fn make(self, home: &mut Home<U, N, JMAX>, seat: u32) -> Result<Reply, Stop> {
        home.session.move_tracker(SeatNo(seat), self.from, self.to)
    }

    ghost stays_allowed = { λ c s h more lawful others may. may };

    ghost one_at_most = { λ c s old new a did. performed_once U.meaning JMAX s old new _ a did };
}

/// Removes all that a tracker has. It never wants memory.
#[derive(Drop)]
pub struct Remove {
    pub tracker: TrackId,
}

impl<U: UnitKind, N: Notify, const JMAX: usize> Call<Home<U, N, JMAX>> for Remove {
    ghost use Rattle.session_model.specs.declared.entry.Event.TheVariants as event;
    ghost use Rattle.shared_session.specs.Does.{TellsAlways};
    ghost use Rattle.shared_session.specs.Single.{performed_once};

    type Answer = Told<N>;

    ghost may = { λ c s h. Unit {0} };

    ghost does = { λ c s old new a. TellsAlways U.meaning JMAX s old new (event.Remove c.tracker) a.answer a.fires };

    fn make(self, home: &mut Home<U, N, JMAX>, seat: u32) -> Told<N> {
        home.session.remove(SeatNo(seat), self.tracker)
    }

    ghost stays_allowed = { λ c s h more lawful others may. may };

    ghost one_at_most = { λ c s old new a did. performed_once U.meaning JMAX s old new _ a.answer did.tells.performs };
}
