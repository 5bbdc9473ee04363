//! Calls on a unit that the seat holds.

use crate::home::Home;
use execution_session::Told;
use orc_ids::{Bytes, Groups, SeatNo, Shape, Stop, UnitId};
use orc_io::Notify;
use session_model::{Reply, UnitKind, Why};
use turn_lock::Call;

/// Places a unit. The shape is the unit's, if the seat may place it.
#[derive(Drop)]
pub struct Place {
    pub unit: UnitId,
    pub shape: Shape,
}

impl<U: UnitKind, N: Notify, const JMAX: usize> Call<Home<U, N, JMAX>> for Place {
    ghost use Rattle.std.specs.Prelude.{IfOk};
    ghost use Rattle.session_model.specs.declared.entry.Event.TheVariants as event;
    ghost use Rattle.session_steps.specs.Performs.{Performs, state_of};
    ghost use Rattle.session_steps.specs.Allowed.{MayPlace};
    ghost use Rattle.session_steps.specs.Handed.{IsLowest};
    ghost use Rattle.shared_session.specs.Does.{seat};
    ghost use Rattle.shared_session.specs.Single.{performed_once};
    ghost use Rattle.shared_session.specs.Carried.{place_is_carried};

    type Answer = Result<Reply, Stop>;

    ghost may = { λ c s h. MayPlace (state_of U.meaning h) s c.unit c.shape };

    ghost does = { λ c s old new a. Performs U.meaning JMAX old new (seat s) (event.Place c.unit c.shape) a × IfOk a (λ r. IsLowest (state_of U.meaning old) c.shape r) };

    fn make(self, home: &mut Home<U, N, JMAX>, seat: u32) -> Result<Reply, Stop> {
        home.session.place(SeatNo(seat), self.unit, self.shape)
    }

    ghost stays_allowed = { λ c s h more lawful others may. place_is_carried U.meaning JMAX s c.unit c.shape h more lawful others may };

    ghost one_at_most = { λ c s old new a did. performed_once U.meaning JMAX s old new _ a did.0 };
}

/// Gives a unit's symbols their addresses. It never wants memory.
#[derive(Drop)]
pub struct Resolve {
    pub unit: UnitId,
}

impl<U: UnitKind, N: Notify, const JMAX: usize> Call<Home<U, N, JMAX>> for Resolve {
    ghost use Rattle.session_model.specs.declared.entry.Event.TheVariants as event;
    ghost use Rattle.shared_session.specs.Does.{TellsAlways};
    ghost use Rattle.shared_session.specs.Single.{performed_once};

    type Answer = Told<N>;

    ghost may = { λ c s h. Unit {0} };

    ghost does = { λ c s old new a. TellsAlways U.meaning JMAX s old new (event.Resolve c.unit) a.answer a.fires };

    fn make(self, home: &mut Home<U, N, JMAX>, seat: u32) -> Told<N> {
        home.session.resolve(SeatNo(seat), self.unit)
    }

    ghost stays_allowed = { λ c s h more lawful others may. may };

    ghost one_at_most = { λ c s old new a did. performed_once U.meaning JMAX s old new _ a.answer did.tells.performs };
}

/// Looks a unit's externals up.
#[derive(Drop)]
pub struct Link {
    pub unit: UnitId,
}

impl<U: UnitKind, N: Notify, const JMAX: usize> Call<Home<U, N, JMAX>> for Link {
    ghost use Rattle.session_model.specs.declared.entry.Event.TheVariants as event;
    ghost use Rattle.shared_session.specs.Does.{Tells};
    ghost use Rattle.shared_session.specs.Single.{performed_once};

    type Answer = Told<N>;

    ghost may = { λ c s h. Unit {0} };

    ghost does = { λ c s old new a. Tells U.meaning JMAX s old new (event.Link c.unit) a.answer a.fires };

    fn make(self, home: &mut Home<U, N, JMAX>, seat: u32) -> Told<N> {
        home.session.link(SeatNo(seat), self.unit)
    }

    ghost stays_allowed = { λ c s h more lawful others may. may };

    ghost one_at_most = { λ c s old new a did. performed_once U.meaning JMAX s old new _ a.answer did.performs };
}

/// Puts a unit's bytes into memory, with its dependence groups. Both are the unit's, if the seat may emit
/// it.
#[derive(Drop)]
pub struct Emit {
    pub unit: UnitId,
    pub groups: Groups,
    pub bytes: Bytes,
}

impl<U: UnitKind, N: Notify, const JMAX: usize> Call<Home<U, N, JMAX>> for Emit {
    ghost use Rattle.session_model.specs.declared.entry.Event.TheVariants as event;
    ghost use Rattle.session_steps.specs.Performs.{state_of};
    ghost use Rattle.session_steps.specs.Allowed.{MayEmit};
    ghost use Rattle.shared_session.specs.Does.{Tells};
    ghost use Rattle.shared_session.specs.Single.{performed_once};
    ghost use Rattle.shared_session.specs.Carried.{emit_is_carried};

    type Answer = Told<N>;

    ghost may = { λ c s h. MayEmit (state_of U.meaning h) s c.unit c.groups c.bytes };

    ghost does = { λ c s old new a. Tells U.meaning JMAX s old new (event.Emit c.unit c.groups) a.answer a.fires };

    fn make(self, home: &mut Home<U, N, JMAX>, seat: u32) -> Told<N> {
        home.session
            .emit(SeatNo(seat), self.unit, self.groups, self.bytes)
    }

    ghost stays_allowed = { λ c s h more lawful others may. emit_is_carried U.meaning JMAX s c.unit c.groups c.bytes h more lawful others may };

    ghost one_at_most = { λ c s old new a did. performed_once U.meaning JMAX s old new _ a.answer did.performs };
}

/// Gives a unit up, for this cause, which is there if the seat may fail the unit. It never wants memory, and
/// the seat that holds the unit is never stopped.
#[derive(Drop)]
pub struct Fail {
    pub unit: UnitId,
    pub why: Why,
}

impl<U: UnitKind, N: Notify, const JMAX: usize> Call<Home<U, N, JMAX>> for Fail {
    ghost use Rattle.session_model.specs.State.{plain_history};
    ghost use Rattle.session_model.specs.declared.entry.Event.TheVariants as event;
    ghost use Rattle.session_steps.specs.Performs.{state_of};
    ghost use Rattle.session_steps.specs.Allowed.{MayFail};
    ghost use Rattle.shared_session.specs.Does.{TellsAlways, HolderIsAnswered};
    ghost use Rattle.shared_session.specs.Single.{performed_once};
    ghost use Rattle.shared_session.specs.Carried.{fail_is_carried};

    type Answer = Told<N>;

    ghost may = { λ c s h. MayFail JMAX (plain_history U.meaning h) (state_of U.meaning h) s c.unit c.why };

    ghost does = { λ c s old new a. TellsAlways U.meaning JMAX s old new (event.Fail c.unit c.why) a.answer a.fires × HolderIsAnswered U.meaning JMAX s old new c.unit a.answer };

    fn make(self, home: &mut Home<U, N, JMAX>, seat: u32) -> Told<N> {
        home.session.fail(SeatNo(seat), self.unit, self.why)
    }

    ghost stays_allowed = { λ c s h more lawful others may. fail_is_carried U.meaning JMAX s c.unit c.why h more lawful others may };

    ghost one_at_most = { λ c s old new a did. performed_once U.meaning JMAX s old new _ a.answer did.0.tells.performs };
}
