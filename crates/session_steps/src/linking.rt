//! A unit's externals that are looked up.

ghost use Rattle.std.specs.Prelude.{◌≡◌, ℕ, true, length, slice_get, None, Some, IfOk, OnErr};
ghost use Rattle.orc_ids.specs.declared.lookup.Level.TheVariants as level;
ghost use Rattle.session_model.specs.Answer.{Right, called, can_link};
ghost use Rattle.session_model.specs.Change.{linked};
ghost use Rattle.session_model.specs.Plain.{Plain, UnitRow, present_at};
ghost use Rattle.session_model.specs.declared.entry.Event.TheVariants as event;
ghost use Rattle.session_laws.specs.Sound.{AllMatched};
ghost use Rattle.session_steps.specs.Lookups.{Lodges, IsLodgingStep};
ghost use Rattle.session_steps.specs.Moved.{IsStill};
ghost use Rattle.session_steps.specs.Stands.{Stands};

use crate::live::{Live, entry_count};
use orc_ids::{Level, SeatNo, UnitId};
use orc_io::Notify;
use session_model::{Matched, Reply, UnitKind};
use session_replies::{Call, Looked, lodged_reply, match_link, turn_away};
use std::alloc::AllocError;

impl<U: UnitKind, N: Notify> Live<U, N> {
    /// The unit waits for what its externals matched.
    fn lodge_link(&mut self, u: UnitId, found: Matched) -> Result<Reply, AllocError>
        ghost m: { Plain }
        requires stands { Stands U.meaning m self.old.parts }
        requires counted { m.entries ≡ length self.old.journal.items }
        requires here { AllMatched (λ i. present_at m.rows i ≡ true) found }
        requires right { (x : UnitRow) × (slice_get m.units u.0 ≡ Some x) × (can_link x ≡ true) }
        ensures lodges { IfOk result (λ r. Lodges U.meaning m (linked u.0 found m) found level.Resolved None r self.old.parts self.new.parts) }
        ensures err { OnErr result (self.new.parts ≡ self.old.parts) }
        ensures rest { self.new ≡ record self.old { parts = self.new.parts } }
    {
        let asked = entry_count(self.journal.as_slice()) + 1;
        let reply = lodged_reply(&self.parts, Level::Resolved, found.as_slice());
        self.parts.link(asked, u, found)?;
        Ok(reply)
    }

    /// Looks up the externals of a unit at which a link is right.
    fn look_up_externals(&mut self, u: UnitId) -> Result<Reply, AllocError>
        ghost m: { Plain }
        requires stands { Stands U.meaning m self.old.parts }
        requires counted { m.entries ≡ length self.old.journal.items }
        requires right { (x : UnitRow) × (slice_get m.units u.0 ≡ Some x) × (can_link x ≡ true) }
        ensures step { IfOk result (λ r. (s : ℕ) (x : UnitRow) → called m s u can_link ≡ Right x → IsLodgingStep U.meaning m s (event.Link u) None r self.old.parts self.new.parts) }
        ensures err { OnErr result (self.new.parts ≡ self.old.parts) }
        ensures rest { self.new ≡ record self.old { parts = self.new.parts } }
    {
        match match_link(&self.parts, u)? {
            Looked::Refused(reply) => Ok(reply),
            Looked::Matched(found) => self.lodge_link(u, found),
        }
    }

    /// Links the unit, or refuses to.
    pub fn link_unit(&mut self, s: SeatNo, u: UnitId) -> Result<Reply, AllocError>
        ghost m: { Plain }
        requires stands { Stands U.meaning m self.old.parts }
        requires counted { m.entries ≡ length self.old.journal.items }
        ensures step { IfOk result (λ r. IsLodgingStep U.meaning m s.0 (event.Link u) None r self.old.parts self.new.parts) }
        ensures still { OnErr result (IsStill U.meaning m self.old.parts self.new.parts) }
        ensures rest { self.new ≡ record self.old { parts = self.new.parts } }
    {
        if let Some(reply) = turn_away(&self.parts, s, u, Call::Link) {
            self.step_away(s, u, &reply);
            return Ok(reply);
        }
        self.look_up_externals(u)
    }
}
