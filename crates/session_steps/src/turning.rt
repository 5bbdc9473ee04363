//! Calls on a unit that are turned away.

ghost use Rattle.std.specs.Prelude.{◌≡◌, Bool};
ghost use Rattle.session_model.specs.Plain.{Plain, UnitRow};
ghost use Rattle.session_model.specs.Change.{changed};
ghost use Rattle.session_parts.specs.Parts.{AreParts};
ghost use Rattle.session_replies.specs.Turned.{IsTurned};
ghost use Rattle.session_steps.specs.Away.{let_go_by};
ghost use Rattle.session_steps.specs.Stands.{Stands};

use crate::live::Live;
use orc_ids::{SeatNo, UnitId};
use orc_io::Notify;
use session_model::{Reply, UnitKind};

impl<U: UnitKind, N: Notify> Live<U, N> {
    /// A seat that is told that the unit is gone doesn't hold it any longer; any other reply of a call that
    /// is turned away changes nothing.
    pub(crate) fn step_away(&mut self, s: SeatNo, u: UnitId, reply: &Reply)
        ghost m: { Plain }
        requires stands { Stands U.meaning m self.old.parts }
        requires turned { (fits : UnitRow → Bool) × IsTurned m s.0 u fits reply.now }
        ensures parts { AreParts U.meaning self.new.parts (changed (let_go_by s reply.now) m) }
        ensures units { self.new.parts ≡ record (self.old.parts) { units = self.new.parts.units } }
        ensures rest { self.new ≡ record self.old { parts = self.new.parts } }
    {
        if let Reply::Defunct(_) = reply {
            self.parts.let_go(s, u);
        }
    }
}
