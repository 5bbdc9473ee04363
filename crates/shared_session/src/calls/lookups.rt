//! Lookups.

use crate::home::Home;
use execution_session::Asked;
use notifiers::Armed;
use orc_ids::{Level, OrderItem, QueryId, SeatNo, Stop, Wanted};
use orc_io::Notify;
use session_model::{Reply, UnitKind};
use turn_lock::Call;

/// Looks names up in an order; of both there are no more than a session takes.
pub struct Ask<'a, N: Notify> {
    pub order: &'a [OrderItem],
    pub wanted: &'a [Wanted],
    pub level: Level,
    pub then: Option<Armed<N>>,
}

impl<'a, U: UnitKind, N: Notify, const JMAX: usize> Call<Home<U, N, JMAX>> for Ask<'a, N> {
    ghost use Rattle.std.specs.Prelude.{◌≤◌, length, option_map};
    ghost use Rattle.orc_ids.specs.declared.limits.TheConstants.{ORDER_LIMIT, WANTED_LIMIT};
    ghost use Rattle.session_model.specs.declared.entry.Event.TheVariants as event;
    ghost use Rattle.session_steps.specs.Lookups.{BacksNotifier};
    ghost use Rattle.shared_session.specs.Does.{Tells};
    ghost use Rattle.shared_session.specs.Single.{performed_once};

    type Answer = Asked<N>;

    ghost may = { λ c s h. (length c.order.now ≤ ORDER_LIMIT) × (length c.wanted.now ≤ WANTED_LIMIT) };

    ghost does = { λ c s old new a. Tells U.meaning JMAX s old new (event.Ask c.order.now c.wanted.now c.level (option_map (λ armed. armed.note) c.then)) a.answer a.fires × BacksNotifier c.then a.answer a.back };

    fn make(self, home: &mut Home<U, N, JMAX>, seat: u32) -> Asked<N> {
        let Ask {
            order,
            wanted,
            level,
            then,
        } = self;
        home.session.ask(SeatNo(seat), order, wanted, level, then)
    }

    ghost stays_allowed = { λ c s h more lawful others may. may };

    ghost one_at_most = { λ c s old new a did. performed_once U.meaning JMAX s old new _ a.answer did.0.performs };
}

/// Asks for the end of a query.
#[derive(Drop)]
pub struct Collect {
    pub query: QueryId,
}

impl<U: UnitKind, N: Notify, const JMAX: usize> Call<Home<U, N, JMAX>> for Collect {
    ghost use Rattle.session_steps.specs.Performs.{Collects};
    ghost use Rattle.shared_session.specs.Does.{seat};
    ghost use Rattle.shared_session.specs.Single.{collected_once};

    type Answer = Result<Reply, Stop>;

    ghost may = { λ c s h. Unit {0} };

    ghost does = { λ c s old new a. Collects U.meaning JMAX old new (seat s) c.query a };

    fn make(self, home: &mut Home<U, N, JMAX>, seat: u32) -> Result<Reply, Stop> {
        home.session.collect(SeatNo(seat), self.query)
    }

    ghost stays_allowed = { λ c s h more lawful others may. may };

    ghost one_at_most = { λ c s old new a did. collected_once U.meaning JMAX s old new c.query a did };
}
