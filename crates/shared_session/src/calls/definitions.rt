//! Definitions and generators.

use crate::home::Home;
use execution_session::Offered;
use orc_ids::{DylibId, GenId, SeatNo, Stop, TrackId};
use orc_io::Notify;
use session_model::{Reply, UnitKind};
use turn_lock::Call;

/// Defines a unit in a dylib, for a tracker. The source of an alias is there.
#[derive(Drop)]
pub struct Define<U> {
    pub dylib: DylibId,
    pub tracker: TrackId,
    pub unit: U,
}

impl<U: UnitKind, N: Notify, const JMAX: usize> Call<Home<U, N, JMAX>> for Define<U> {
    ghost use Rattle.session_model.specs.Answer.{HasSource};
    ghost use Rattle.session_model.specs.declared.entry.Event.TheVariants as event;
    ghost use Rattle.session_steps.specs.Performs.{state_of, PerformsWith};
    ghost use Rattle.session_steps.specs.Given.{HandsBack};
    ghost use Rattle.shared_session.specs.Does.{seat};
    ghost use Rattle.shared_session.specs.Single.{performed_once};
    ghost use Rattle.shared_session.specs.Carried.{source_is_carried};

    type Answer = Offered<U>;

    ghost may = { λ c s h. HasSource (state_of U.meaning h) (U.meaning c.unit) };

    ghost does = { λ c s old new a. PerformsWith U.meaning JMAX old new (seat s) (λ share. event.Define c.dylib c.tracker share) c.unit a.answer × HandsBack U.meaning c.unit a.answer a.back };

    fn make(self, home: &mut Home<U, N, JMAX>, seat: u32) -> Offered<U> {
        home.session
            .define(SeatNo(seat), self.dylib, self.tracker, self.unit)
    }

    ghost stays_allowed = { λ c s h more lawful others may. source_is_carried U.meaning JMAX s (U.meaning c.unit) h more lawful others may };

    ghost one_at_most = { λ c s old new a did. performed_once U.meaning JMAX s old new _ a.answer did.0.2 };
}

/// Attaches a unit to a dylib as a generator. The source of an alias is there.
#[derive(Drop)]
pub struct Attach<U> {
    pub dylib: DylibId,
    pub tracker: TrackId,
    pub unit: U,
}

impl<U: UnitKind, N: Notify, const JMAX: usize> Call<Home<U, N, JMAX>> for Attach<U> {
    ghost use Rattle.session_model.specs.Answer.{HasSource};
    ghost use Rattle.session_model.specs.declared.entry.Event.TheVariants as event;
    ghost use Rattle.session_steps.specs.Performs.{state_of, PerformsWith};
    ghost use Rattle.session_steps.specs.Given.{HandsBackGenerator};
    ghost use Rattle.shared_session.specs.Does.{seat};
    ghost use Rattle.shared_session.specs.Single.{performed_once};
    ghost use Rattle.shared_session.specs.Carried.{source_is_carried};

    type Answer = Offered<U>;

    ghost may = { λ c s h. HasSource (state_of U.meaning h) (U.meaning c.unit) };

    ghost does = { λ c s old new a. PerformsWith U.meaning JMAX old new (seat s) (λ share. event.Attach c.dylib c.tracker share) c.unit a.answer × HandsBackGenerator U.meaning c.unit a.answer a.back };

    fn make(self, home: &mut Home<U, N, JMAX>, seat: u32) -> Offered<U> {
        home.session
            .attach(SeatNo(seat), self.dylib, self.tracker, self.unit)
    }

    ghost stays_allowed = { λ c s h more lawful others may. source_is_carried U.meaning JMAX s (U.meaning c.unit) h more lawful others may };

    ghost one_at_most = { λ c s old new a did. performed_once U.meaning JMAX s old new _ a.answer did.0.2 };
}

/// Defines the unit of a generator.
#[derive(Drop)]
pub struct Generate {
    pub generator: GenId,
}

impl<U: UnitKind, N: Notify, const JMAX: usize> Call<Home<U, N, JMAX>> for Generate {
    ghost use Rattle.session_model.specs.declared.entry.Event.TheVariants as event;
    ghost use Rattle.session_steps.specs.Performs.{Performs};
    ghost use Rattle.shared_session.specs.Does.{seat};
    ghost use Rattle.shared_session.specs.Single.{performed_once};

    type Answer = Result<Reply, Stop>;

    ghost may = { λ c s h. Unit {0} };

    ghost does = { λ c s old new a. Performs U.meaning JMAX old new (seat s) (event.Generate c.generator) a };

    fn make(self, home: &mut Home<U, N, JMAX>, seat: u32) -> Result<Reply, Stop> {
        home.session.generate(SeatNo(seat), self.generator)
    }

    ghost stays_allowed = { λ c s h more lawful others may. may };

    ghost one_at_most = { λ c s old new a did. performed_once U.meaning JMAX s old new _ a did };
}
