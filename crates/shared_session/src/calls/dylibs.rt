//! Dylibs.

use crate::home::Home;
use orc_ids::{DylibId, NameId, OrderItem, SeatNo, Stop};
use orc_io::Notify;
use session_model::{Reply, UnitKind};
use turn_lock::Call;

/// Makes a dylib of this name.
#[derive(Drop)]
pub struct MakeDylib {
    pub name: NameId,
}

impl<U: UnitKind, N: Notify, const JMAX: usize> Call<Home<U, N, JMAX>> for MakeDylib {
    ghost use Rattle.session_model.specs.declared.entry.Event.TheVariants as event;
    ghost use Rattle.session_steps.specs.Performs.{Performs};
    ghost use Rattle.shared_session.specs.Does.{seat};
    ghost use Rattle.shared_session.specs.Single.{performed_once};

    type Answer = Result<Reply, Stop>;

    ghost may = { λ c s h. Unit {0} };

    ghost does = { λ c s old new a. Performs U.meaning JMAX old new (seat s) (event.Dylib c.name) a };

    fn make(self, home: &mut Home<U, N, JMAX>, seat: u32) -> Result<Reply, Stop> {
        home.session.dylib(SeatNo(seat), self.name)
    }

    ghost stays_allowed = { λ c s h more lawful others may. may };

    ghost one_at_most = { λ c s old new a did. performed_once U.meaning JMAX s old new _ a did };
}

/// Sets the link order of a dylib, of at most `ORDER_LIMIT` items.
#[derive(Drop)]
pub struct SetOrder<'a> {
    pub dylib: DylibId,
    pub order: &'a [OrderItem],
}

impl<'a, U: UnitKind, N: Notify, const JMAX: usize> Call<Home<U, N, JMAX>> for SetOrder<'a> {
    ghost use Rattle.std.specs.Prelude.{◌≤◌, length};
    ghost use Rattle.orc_ids.specs.declared.limits.TheConstants.{ORDER_LIMIT};
    ghost use Rattle.session_model.specs.declared.entry.Event.TheVariants as event;
    ghost use Rattle.session_steps.specs.Performs.{Performs};
    ghost use Rattle.shared_session.specs.Does.{seat};
    ghost use Rattle.shared_session.specs.Single.{performed_once};

    type Answer = Result<Reply, Stop>;

    ghost may = { λ c s h. length c.order.now ≤ ORDER_LIMIT };

    ghost does = { λ c s old new a. Performs U.meaning JMAX old new (seat s) (event.SetOrder c.dylib c.order.now) a };

    fn make(self, home: &mut Home<U, N, JMAX>, seat: u32) -> Result<Reply, Stop> {
        home.session.set_order(SeatNo(seat), self.dylib, self.order)
    }

    ghost stays_allowed = { λ c s h more lawful others may. may };

    ghost one_at_most = { λ c s old new a did. performed_once U.meaning JMAX s old new _ a did };
}
