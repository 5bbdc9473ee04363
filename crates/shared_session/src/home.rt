//! The session that the turn goes round with.
ghost use Rattle.std.specs.Prelude.{◌≡◌};
ghost use Rattle.session_model.specs.State.{plain_history};
ghost use Rattle.history_laws.specs.Notes.{AreNoted};

use execution_session::Session;
use orc_io::Notify;
use session_model::{Entry, UnitKind};
use turn_lock::Counted;

/// A session, whose history is its journal. The journal tells which query has a notifier, with which
/// note. It lies on the heap, so that a turn hands on where it is and doesn't move it.
pub struct Home<U: UnitKind, N: Notify, const JMAX: usize> {
    pub(crate) session: Box<Session<U, N, JMAX>>,
    ghost noted: { AreNoted (plain_history U.meaning session.value.journal) session.value.armed },
}

impl<U: UnitKind, N: Notify, const JMAX: usize> Counted for Home<U, N, JMAX> {
    ghost use Rattle.shared_session.specs.Home.{IsLawful, IsPosted, seat_of};
    ghost use Rattle.shared_session.specs.Carried.{lawful_before, stays_posted, posted_once};

    type Entry = Entry<U>;

    ghost history = { λ home. home.session.value.journal };

    ghost seat_of = { seat_of };

    ghost lawful = { IsLawful U.meaning JMAX };

    ghost posted = { IsPosted U.meaning };

    fn history_len(&self) -> u64 {
        self.session.journal().len() as u64
    }

    ghost lawful_before = { lawful_before U.meaning JMAX };

    ghost stays_posted = { stays_posted U.meaning JMAX };

    ghost posted_once = { posted_once U.meaning JMAX };
}
