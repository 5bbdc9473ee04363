//! A unit that is placed.

ghost use Rattle.std.specs.Prelude.{◌≡◌, Some, IfOk, OnErr};
ghost use Rattle.session_model.specs.Plain.{Plain, UnitRow, unit_shape};
ghost use Rattle.session_model.specs.Answer.{Right, called, can_place};
ghost use Rattle.session_model.specs.declared.entry.Event.TheVariants as event;
ghost use Rattle.session_steps.specs.Handed.{IsLowest};
ghost use Rattle.session_steps.specs.Moved.{IsStill};
ghost use Rattle.session_steps.specs.Stands.{Stands};
ghost use Rattle.session_steps.specs.Steps.{IsQuietStep};

use crate::live::Live;
use code_memory::SpaceError;
use orc_ids::{SeatNo, Shape, UnitId};
use orc_io::Notify;
use session_model::{Reply, UnitKind};
use session_replies::{Call, turn_away};
use std::alloc::AllocError;

impl<U: UnitKind, N: Notify> Live<U, N> {
    /// The unit gets the lowest free range of its shape, if one is free.
    fn give_range(&mut self, s: SeatNo, u: UnitId, shape: Shape) -> Result<Reply, AllocError>
        ghost m: { Plain }
        requires stands { Stands U.meaning m self.old.parts }
        requires right { (x : UnitRow) × (called m s.0 u can_place ≡ Right x) × (unit_shape x ≡ Some shape) }
        ensures step { IfOk result (λ r. IsQuietStep U.meaning m s.0 (event.Place u shape) r self.old.parts self.new.parts) }
        ensures lowest { IfOk result (IsLowest m shape) }
        ensures still { OnErr result (IsStill U.meaning m self.old.parts self.new.parts) }
        ensures rest { self.new ≡ record self.old { parts = self.new.parts } }
    {
        match self.parts.place(u, shape) {
            Ok(base) => Ok(Reply::Placed(base)),
            Err(SpaceError::NoRoom(need)) => Ok(Reply::NoRoom(need)),
            Err(SpaceError::NoMemory) => Err(AllocError),
        }
    }

    /// Places the unit, or refuses it.
    pub fn place_unit(&mut self, s: SeatNo, u: UnitId, shape: Shape) -> Result<Reply, AllocError>
        ghost m: { Plain }
        requires stands { Stands U.meaning m self.old.parts }
        requires shape { (x : UnitRow) → called m s.0 u can_place ≡ Right x → unit_shape x ≡ Some shape }
        ensures step { IfOk result (λ r. IsQuietStep U.meaning m s.0 (event.Place u shape) r self.old.parts self.new.parts) }
        ensures lowest { IfOk result (IsLowest m shape) }
        ensures still { OnErr result (IsStill U.meaning m self.old.parts self.new.parts) }
        ensures rest { self.new ≡ record self.old { parts = self.new.parts } }
    {
        if let Some(refusal) = turn_away(&self.parts, s, u, Call::Place) {
            self.step_away(s, u, &refusal);
            return Ok(refusal);
        }
        self.give_range(s, u, shape)
    }
}
