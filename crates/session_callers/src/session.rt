//! What a caller of `execution_session` has of its contract: each function here is one call, and its clause
//! is what the call promises. Its wrong bodies turn what was handed in or what came back, by another seat,
//! another number or an answer that has no entry, and the gate sees each refused; so the contract of a
//! crate whose own wrong bodies take too long for the gate is tried there all the same.

ghost use Rattle.std.specs.Prelude.{◌≡◌, ◌≤◌, Err, length};
ghost use Rattle.orc_ids.specs.declared.limits.TheConstants.{ORDER_LIMIT};
ghost use Rattle.orc_ids.specs.declared.lookup.Stop.TheVariants.{NoMemory};
ghost use Rattle.session_model.specs.declared.entry.Event.TheVariants as event;
ghost use Rattle.session_steps.specs.Performs.{Performs, Collects};

use execution_session::{Session, Told};
use orc_ids::{DylibId, NameId, OrderItem, QueryId, SeatNo, Stop, TrackId, UnitId};
use orc_io::Notify;
use session_model::{Reply, UnitKind};

/// A dylib is made.
pub fn made_dylib<U: UnitKind, N: Notify, const JMAX: usize>(
    session: &mut Session<U, N, JMAX>,
    s: SeatNo,
    name: NameId,
) -> Result<Reply, Stop>
    ensures { Performs U.meaning JMAX session.old.journal session.new.journal s (event.Dylib name) result }
{
    session.dylib(s, name)
}

/// A link order is set.
pub fn ordered<U: UnitKind, N: Notify, const JMAX: usize>(
    session: &mut Session<U, N, JMAX>,
    s: SeatNo,
    d: DylibId,
    order: &[OrderItem],
) -> Result<Reply, Stop>
    requires { length order.now ≤ ORDER_LIMIT }
    ensures { Performs U.meaning JMAX session.old.journal session.new.journal s (event.SetOrder d order.now) result }
{
    session.set_order(s, d, order)
}

/// What a tracker has goes to another one.
pub fn moved<U: UnitKind, N: Notify, const JMAX: usize>(
    session: &mut Session<U, N, JMAX>,
    s: SeatNo,
    t: TrackId,
    to: TrackId,
) -> Result<Reply, Stop>
    ensures { Performs U.meaning JMAX session.old.journal session.new.journal s (event.MoveTracker t to) result }
{
    session.move_tracker(s, t, to)
}

/// A unit's symbols get their addresses.
pub fn resolved<U: UnitKind, N: Notify, const JMAX: usize>(
    session: &mut Session<U, N, JMAX>,
    s: SeatNo,
    u: UnitId,
) -> Told<N>
    ensures performs { Performs U.meaning JMAX session.old.journal session.new.journal s (event.Resolve u) result.answer }
    ensures memory { result.answer ≡ Err NoMemory → ⊥ }
{
    session.resolve(s, u)
}

/// All that a tracker has is removed.
pub fn removed<U: UnitKind, N: Notify, const JMAX: usize>(
    session: &mut Session<U, N, JMAX>,
    s: SeatNo,
    t: TrackId,
) -> Told<N>
    ensures { Performs U.meaning JMAX session.old.journal session.new.journal s (event.Remove t) result.answer }
{
    session.remove(s, t)
}

/// A query's end.
pub fn collected<U: UnitKind, N: Notify, const JMAX: usize>(
    session: &mut Session<U, N, JMAX>,
    s: SeatNo,
    q: QueryId,
) -> Result<Reply, Stop>
    ensures { Collects U.meaning JMAX session.old.journal session.new.journal s q result }
{
    session.collect(s, q)
}
