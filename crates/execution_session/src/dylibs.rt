//! Dylibs that are made, and their link orders.

ghost use Rattle.std.specs.Prelude.{◌≡◌, ◌≤◌, length, IfOk};
ghost use Rattle.orc_ids.specs.declared.limits.TheConstants.{ORDER_LIMIT};
ghost use Rattle.session_model.specs.declared.entry.Event.TheVariants as event;
ghost use Rattle.session_steps.specs.Performs.{Performs};

use crate::entering::enter_quietly;
use crate::places::check_places;
use crate::session::Session;
use orc_ids::{DylibId, Items, NameId, OrderItem, SeatNo, Stop};
use orc_io::Notify;
use session_model::{Event, Order, Reply, UnitKind};
use std::alloc::{AllocError, Global};

/// The same order, for the journal.
fn copy_order(alloc: Global, order: &[OrderItem]) -> Result<Order, AllocError>
    ensures { IfOk result (λ copy. copy ≡ order.now) }
{
    let mut items = Vec::with_capacity(alloc, order.len())?;
    items.extend_from_slice(order)?;
    Ok(Items::from_vec(items))
}

impl<U: UnitKind, N: Notify, const JMAX: usize> Session<U, N, JMAX> {
    /// Makes a dylib of this name (ORC: `ExecutionSession::createJITDylib`).
    pub fn dylib(&mut self, s: SeatNo, name: NameId) -> Result<Reply, Stop>
        ensures performs { Performs U.meaning JMAX self.old.journal self.new.journal s (event.Dylib name) result }
        ensures armed { self.new.armed ≡ self.old.armed }
    {
        check_places::<U, N, JMAX>(&self.live, 1)?;
        let Ok(reply) = self.live.make_dylib(name) else {
            return Err(Stop::NoMemory);
        };
        Ok(enter_quietly::<U, N, JMAX>(&mut self.live, s, Event::Dylib(name), reply))
    }

    /// The dylib's link order is itself, and then these (ORC: `JITDylib::setLinkOrder`).
    pub fn set_order(&mut self, s: SeatNo, d: DylibId, order: &[OrderItem]) -> Result<Reply, Stop>
        requires { length order.now ≤ ORDER_LIMIT }
        ensures performs { Performs U.meaning JMAX self.old.journal self.new.journal s (event.SetOrder d order.now) result }
        ensures armed { self.new.armed ≡ self.old.armed }
    {
        check_places::<U, N, JMAX>(&self.live, 1)?;
        let Ok(copy) = copy_order(self.live.parts.alloc, order) else {
            return Err(Stop::NoMemory);
        };
        let Ok(reply) = self.live.set_order(d, order) else {
            return Err(Stop::NoMemory);
        };
        Ok(enter_quietly::<U, N, JMAX>(&mut self.live, s, Event::SetOrder(d, copy), reply))
    }
}
