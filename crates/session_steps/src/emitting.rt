//! A unit's bytes that are put into memory.

ghost use Rattle.std.specs.Prelude.{◌≡◌, IfOk, OnErr};
ghost use Rattle.session_model.specs.Plain.{Plain};
ghost use Rattle.session_model.specs.declared.entry.Event.TheVariants as event;
ghost use Rattle.session_steps.specs.Allowed.{MayEmit};
ghost use Rattle.session_steps.specs.Finish.{UnitFits};
ghost use Rattle.session_steps.specs.Moved.{IsStill};
ghost use Rattle.session_steps.specs.Stands.{Stands};
ghost use Rattle.session_steps.specs.Steps.{IsTellingStep};

use crate::live::Live;
use orc_ids::{Bytes, Group, SeatNo, UnitId};
use orc_io::Notify;
use session_model::{Reply, UnitKind};
use session_replies::{Call, bad_dependency, turn_away};
use std::alloc::AllocError;

impl<U: UnitKind, N: Notify> Live<U, N> {
    /// The unit's bytes are in memory, and its instances have their groups' dependencies; or the call is
    /// turned away, or a dependency is refused.
    pub fn emit_unit(
        &mut self,
        s: SeatNo,
        u: UnitId,
        groups: &[Group],
        bytes: Bytes,
    ) -> Result<Reply, AllocError>
        ghost m: { Plain }
        requires stands { Stands U.meaning m self.old.parts }
        requires fits { UnitFits m u }
        requires finish { MayEmit m s.0 u groups.now bytes }
        ensures step { IfOk result (λ r. IsTellingStep U.meaning m s.0 (event.Emit u groups.now) r self.old.parts self.new.parts) }
        ensures still { OnErr result (IsStill U.meaning m self.old.parts self.new.parts) }
        ensures rest { self.new ≡ record self.old { parts = self.new.parts } }
    {
        if let Some(reply) = turn_away(&self.parts, s, u, Call::Emit) {
            self.step_away(s, u, &reply);
            return Ok(reply);
        }
        if let Some(reply) = bad_dependency(&self.parts, groups) {
            return Ok(reply);
        }
        self.parts.emit(u, groups, bytes)?;
        Ok(Reply::Emitted)
    }
}
