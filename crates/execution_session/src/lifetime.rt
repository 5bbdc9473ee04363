//! Sessions that are opened, and ended.

ghost use Rattle.std.specs.Prelude.{◌≡◌, ◌≤◌, ◌+◌, [], None, IfOk, IfSome, IfNone};
ghost use Rattle.query_book.specs.Rows.{armed_count, first_armed, without_first};
ghost use Rattle.execution_session.specs.declared.session.TheConstants.{JOURNAL_LIMIT};

use crate::session::Session;
use notifiers::Armed;
use orc_io::Notify;
use session_model::UnitKind;
use session_parts::Parts;
use session_steps::Live;
use std::alloc::{AllocError, Global};

impl<U: UnitKind, N: Notify, const JMAX: usize> Session<U, N, JMAX> {
    /// A session without an entry, with all places of its journal (ORC: `ExecutionSession`'s constructor).
    pub fn open(alloc: Global) -> Result<Session<U, N, JMAX>, AllocError>
        requires { JMAX ≤ JOURNAL_LIMIT }
        ensures { IfOk result (λ session. session ≡ record { journal = []; armed = [] }) }
    {
        let journal = Vec::with_capacity(alloc, JMAX)?;
        Ok(Session {
            live: Live {
                parts: Parts::new(alloc),
                journal,
            },
        })
    }

    /// Hands out the notifier of the lowest open query that has one, which has heard nothing; so a session
    /// that is to end is rid of them. Takes no memory.
    pub fn give_back(&mut self) -> Option<Armed<N>>
        ensures first { result ≡ first_armed self.old.armed }
        ensures journal { self.new.journal ≡ self.old.journal }
        ensures armed { self.new.armed ≡ without_first self.old.armed }
        ensures none { IfNone result (first_armed self.new.armed ≡ None) }
        ensures fewer { IfSome result (λ armed. armed_count self.new.armed + 1 ≡ armed_count self.old.armed) }
    {
        self.live.parts.book.give_back()
    }

    /// Gives up the session, whose notifiers were all told or handed out (ORC:
    /// `ExecutionSession::endSession`).
    pub fn end(self)
        requires { first_armed self.armed ≡ None }
    {
        let Session { live } = self;
        let Live {
            parts,
            journal: _journal,
        } = live;
        parts.end();
    }
}
