//! A lookup.

ghost use Rattle.std.specs.Prelude.{◌≡◌, ◌≤◌, ℕ, true, None, length, IfOk, OnErr};
ghost use Rattle.orc_ids.specs.declared.limits.TheConstants.{ORDER_LIMIT, WANTED_LIMIT};
ghost use Rattle.session_model.specs.Change.{lodged};
ghost use Rattle.session_model.specs.Plain.{Plain, present_at};
ghost use Rattle.session_model.specs.declared.entry.Event.TheVariants as event;
ghost use Rattle.session_laws.specs.Sound.{AllMatched};
ghost use Rattle.session_parts.specs.Lodged.{note_of};
ghost use Rattle.session_steps.specs.Lookups.{BacksNotifier, Lodges, IsLodgingStep};
ghost use Rattle.session_steps.specs.Stands.{Stands};

use crate::live::{Live, entry_count};
use notifiers::Armed;
use orc_ids::{Level, OrderItem, Wanted};
use orc_io::Notify;
use session_model::{Matched, Reply, UnitKind};
use session_parts::note_of;
use session_replies::{Looked, lodged_reply, match_ask};
use std::alloc::AllocError;

impl<U: UnitKind, N: Notify> Live<U, N> {
    /// A query is lodged for what a lookup matched; a refusal leaves the notifier where it was.
    fn lodge_ask(
        &mut self,
        found: Matched,
        level: Level,
        then: &mut Option<Armed<N>>,
    ) -> Result<Reply, AllocError>
        ghost m: { Plain }
        requires stands { Stands U.meaning m self.old.parts }
        requires counted { m.entries ≡ length self.old.journal.items }
        requires here { AllMatched (λ i. present_at m.rows i ≡ true) found }
        ensures lodges { IfOk result (λ r. Lodges U.meaning m (lodged found level None (note_of then.old) m) found level then.old r self.old.parts self.new.parts) }
        ensures back { BacksNotifier then.old result then.new }
        ensures err { OnErr result (self.new.parts ≡ self.old.parts) }
        ensures rest { self.new ≡ record self.old { parts = self.new.parts } }
    {
        let asked = entry_count(self.journal.as_slice()) + 1;
        let reply = lodged_reply(&self.parts, level, found.as_slice());
        self.parts.ask(asked, found, level, then)?;
        Ok(reply)
    }

    /// Looks the names up in the order, or refuses to.
    pub fn look_up(
        &mut self,
        order: &[OrderItem],
        wanted: &[Wanted],
        level: Level,
        then: &mut Option<Armed<N>>,
    ) -> Result<Reply, AllocError>
        ghost m: { Plain }
        requires stands { Stands U.meaning m self.old.parts }
        requires counted { m.entries ≡ length self.old.journal.items }
        requires order { length order.now ≤ ORDER_LIMIT }
        requires wanted { length wanted.now ≤ WANTED_LIMIT }
        ensures step { IfOk result (λ r. (s : ℕ) → IsLodgingStep U.meaning m s (event.Ask order.now wanted.now level (note_of then.old)) then.old r self.old.parts self.new.parts) }
        ensures back { BacksNotifier then.old result then.new }
        ensures err { OnErr result (self.new.parts ≡ self.old.parts) }
        ensures rest { self.new ≡ record self.old { parts = self.new.parts } }
    {
        match match_ask(&self.parts, order, wanted)? {
            Looked::Refused(reply) => Ok(reply),
            Looked::Matched(found) => self.lodge_ask(found, level, then),
        }
    }
}
