//! Trackers that are made, and moved.

ghost use Rattle.std.specs.Prelude.{◌≡◌, ℕ, IfOk, OnErr};
ghost use Rattle.session_model.specs.Plain.{Plain};
ghost use Rattle.session_model.specs.declared.entry.Event.TheVariants as event;
ghost use Rattle.session_steps.specs.Moved.{IsStill};
ghost use Rattle.session_steps.specs.Stands.{Stands};
ghost use Rattle.session_steps.specs.Steps.{IsQuietStep};

use crate::live::Live;
use orc_ids::{DylibId, TrackId};
use orc_io::Notify;
use session_model::{Reply, UnitKind};
use session_replies::{refuse_move, refuse_tracker};
use std::alloc::AllocError;

impl<U: UnitKind, N: Notify> Live<U, N> {
    /// Makes a tracker of the dylib, or refuses it.
    pub fn make_tracker(&mut self, d: DylibId) -> Result<Reply, AllocError>
        ghost m: { Plain }
        requires stands { Stands U.meaning m self.old.parts }
        ensures step { IfOk result (λ r. (s : ℕ) → IsQuietStep U.meaning m s (event.Tracker d) r self.old.parts self.new.parts) }
        ensures still { OnErr result (IsStill U.meaning m self.old.parts self.new.parts) }
        ensures rest { self.new ≡ record self.old { parts = self.new.parts } }
    {
        if let Some(refusal) = refuse_tracker(&self.parts, d) {
            return Ok(refusal);
        }
        match self.parts.make_tracker(d) {
            Ok(t) => Ok(Reply::Tracker(t)),
            Err(_) => Err(AllocError),
        }
    }

    /// Gives all that the first tracker has to the second, or refuses it.
    pub fn move_all(&mut self, t: TrackId, to: TrackId) -> Result<Reply, AllocError>
        ghost m: { Plain }
        requires stands { Stands U.meaning m self.old.parts }
        ensures step { IfOk result (λ r. (s : ℕ) → IsQuietStep U.meaning m s (event.MoveTracker t to) r self.old.parts self.new.parts) }
        ensures still { OnErr result (IsStill U.meaning m self.old.parts self.new.parts) }
        ensures rest { self.new ≡ record self.old { parts = self.new.parts } }
    {
        if let Some(refusal) = refuse_move(&self.parts, t, to) {
            return Ok(refusal);
        }
        self.parts.move_all(t, to)?;
        Ok(Reply::Moved)
    }
}
