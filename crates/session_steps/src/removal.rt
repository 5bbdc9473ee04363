//! A tracker that is removed.

ghost use Rattle.std.specs.Prelude.{◌≡◌, ℕ};
ghost use Rattle.session_model.specs.Plain.{Plain};
ghost use Rattle.session_model.specs.declared.entry.Event.TheVariants as event;
ghost use Rattle.session_steps.specs.Stands.{Stands};
ghost use Rattle.session_steps.specs.Steps.{IsTellingStep};

use crate::live::Live;
use orc_ids::TrackId;
use orc_io::Notify;
use session_model::{Reply, UnitKind};
use session_replies::refuse_remove;

impl<U: UnitKind, N: Notify> Live<U, N> {
    /// All that the tracker has goes, or it is gone already. Takes no memory.
    pub fn remove_tracker(&mut self, t: TrackId) -> Reply
        ghost m: { Plain }
        requires stands { Stands U.meaning m self.old.parts }
        ensures step { (s : ℕ) → IsTellingStep U.meaning m s (event.Remove t) result self.old.parts self.new.parts }
        ensures rest { self.new ≡ record self.old { parts = self.new.parts } }
    {
        if let Some(refusal) = refuse_remove(&self.parts, t) {
            return refusal;
        }
        self.parts.remove(t);
        Reply::Removed
    }
}
