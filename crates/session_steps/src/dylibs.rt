//! A dylib that is made, and its link order.

ghost use Rattle.std.specs.Prelude.{◌≡◌, ◌≤◌, ℕ, length, IfOk, OnErr};
ghost use Rattle.orc_ids.specs.declared.limits.TheConstants.{ORDER_LIMIT};
ghost use Rattle.session_model.specs.Plain.{Plain};
ghost use Rattle.session_model.specs.declared.entry.Event.TheVariants as event;
ghost use Rattle.session_steps.specs.Moved.{IsStill};
ghost use Rattle.session_steps.specs.Stands.{Stands};
ghost use Rattle.session_steps.specs.Steps.{IsQuietStep};

use crate::live::Live;
use orc_ids::{DylibId, NameId, OrderItem};
use orc_io::Notify;
use session_model::{Reply, UnitKind};
use session_replies::{refuse_dylib, refuse_order};
use std::alloc::AllocError;

impl<U: UnitKind, N: Notify> Live<U, N> {
    /// Makes a dylib of this name, or refuses it.
    pub fn make_dylib(&mut self, name: NameId) -> Result<Reply, AllocError>
        ghost m: { Plain }
        requires stands { Stands U.meaning m self.old.parts }
        ensures step { IfOk result (λ r. (s : ℕ) → IsQuietStep U.meaning m s (event.Dylib name) r self.old.parts self.new.parts) }
        ensures still { OnErr result (IsStill U.meaning m self.old.parts self.new.parts) }
        ensures rest { self.new ≡ record self.old { parts = self.new.parts } }
    {
        if let Some(refusal) = refuse_dylib(&self.parts, name) {
            return Ok(refusal);
        }
        let d = DylibId(self.parts.dylibs.len() as u32);
        self.parts.make_dylib(name)?;
        Ok(Reply::Made(d))
    }

    /// Gives the dylib this link order, or refuses it.
    pub fn set_order(&mut self, d: DylibId, order: &[OrderItem]) -> Result<Reply, AllocError>
        ghost m: { Plain }
        requires stands { Stands U.meaning m self.old.parts }
        requires few { length order.now ≤ ORDER_LIMIT }
        ensures step { IfOk result (λ r. (s : ℕ) → IsQuietStep U.meaning m s (event.SetOrder d order.now) r self.old.parts self.new.parts) }
        ensures still { OnErr result (IsStill U.meaning m self.old.parts self.new.parts) }
        ensures rest { self.new ≡ record self.old { parts = self.new.parts } }
    {
        if let Some(refusal) = refuse_order(&self.parts, d, order) {
            return Ok(refusal);
        }
        self.parts.set_order(d, order)?;
        Ok(Reply::Set)
    }
}
