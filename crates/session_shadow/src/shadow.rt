//! The plain session beside a session.

ghost use Rattle.std.specs.Prelude.{◌≡◌, ◌+◌, ◌<◌, ◌^◌, ◌++◌, ◌∷◌, [], length, take, IsTrue, IfOk};
ghost use Rattle.session_check.specs.Known.{known_meaning};
ghost use Rattle.session_plain.specs.Meant.{IsSmall, LiveFit};
ghost use Rattle.session_shadow.specs.Follows.{Follows, IsShadow};

use session_check::{KnownUnit, empty_session, play};
use session_model::Entry;
use session_past::{Ends, fit_suits};
use session_plain::PlainSession;
use std::alloc::{AllocError, Global};

/// The plain session that the entries of a journal led to, and the ends of its queries.
#[derive(Drop)]
pub struct Shadow {
    pub plain: PlainSession<KnownUnit>,
    pub ends: Ends,
    /// How many entries they are.
    pub seen: usize,
}

impl Shadow {
    /// Before the first entry.
    pub fn new(alloc: Global) -> Shadow
        ensures { Follows [] result }
    {
        Shadow {
            plain: empty_session(alloc),
            ends: Vec::new(alloc),
            seen: 0,
        }
    }

    /// Its things can be numbered, and its units' flags fit their names.
    pub(crate) fn suits(&self)
        requires { IsShadow self.now }
        ensures small { IsSmall self.now.plain }
        ensures live { LiveFit known_meaning self.now.plain.units.items }
    {
        fit_suits::<KnownUnit>();
    }

    /// One more entry, if its reply is a right one.
    fn step(
        &mut self,
        alloc: Global,
        jmax: u64,
        past: &[Entry<KnownUnit>],
        e: &Entry<KnownUnit>,
    ) -> Result<bool, AllocError>
        requires follows { Follows past.now self.old }
        requires counted { length past.now + 1 < 2 ^ 32 }
        ensures { IfOk result (λ right. IsTrue right → Follows (past.now ++ e.now ∷ []) self.new) }
    {
        let right = play(alloc, jmax, past, &mut self.plain, &mut self.ends, e)?;
        self.seen = past.len() + 1;
        Ok(right)
    }

    /// The entry that the journal has gained, if it has one: whether its reply is a right one. A journal of
    /// 2 ^ 32 entries isn't followed.
    pub fn follow(
        &mut self,
        alloc: Global,
        jmax: u64,
        journal: &[Entry<KnownUnit>],
    ) -> Result<bool, AllocError>
        requires { Follows (take self.old.seen journal.now) self.old }
        ensures { IfOk result (λ right. IsTrue right → Follows journal.now self.new) }
    {
        let seen = self.seen;
        if journal.len() == seen {
            return Ok(true);
        }
        if journal.len() != seen + 1 || journal.len() > u32::MAX as usize {
            return Ok(false);
        }
        self.step(alloc, jmax, &journal[..seen], &journal[seen])
    }
}
