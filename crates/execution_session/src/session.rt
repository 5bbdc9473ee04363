ghost use Rattle.std.specs.Prelude.{◌≡◌};
ghost use Rattle.session_model.specs.State.{plain_history};
ghost use Rattle.session_model.specs.History.{IsLegal, HasPlaces};

use notifiers::{Armed, Fires};
use orc_ids::{ENTRY_LIMIT, Stop};
use orc_io::Notify;
use session_model::{Entry, Reply, UnitKind};
use session_steps::Live;
use std::marker::Model;

/// The most entries that a journal can have.
pub const JOURNAL_LIMIT: usize = ENTRY_LIMIT;

/// A session, with a journal of at most `JMAX` entries; it must be ended, for its notifiers. Contracts see
/// the journal, and which query has a notifier.
pub struct Session<U: UnitKind, N: Notify, const JMAX: usize> {
    pub(crate) live: Live<U, N>,
}

impl<U: UnitKind, N: Notify, const JMAX: usize> Model for Session<U, N, JMAX> {
    ghost use Rattle.session_steps.specs.Log.{Log};

    ghost Value = { Log U N };

    ghost use Rattle.session_steps.specs.Log.{log_of};
    ghost use Rattle.session_steps.specs.Rest.{Rests};

    ghost view = { λ s. log_of s.live };

    ghost invariant = { λ s. Rests U.meaning JMAX s.live };
}

/// The answer of an event, and the notifiers that are to be told.
pub struct Told<N: Notify> {
    pub answer: Result<Reply, Stop>,
    pub fires: Fires<N>,
}

/// The answer of a lookup, its notifier where no query was lodged, and the notifiers that are to be told.
pub struct Asked<N: Notify> {
    pub answer: Result<Reply, Stop>,
    pub back: Option<Armed<N>>,
    pub fires: Fires<N>,
}

impl<U: UnitKind, N: Notify, const JMAX: usize> Session<U, N, JMAX> {
    /// The entries so far.
    pub fn journal(&self) -> &[Entry<U>]
        ensures entries { result.now ≡ self.now.journal }
        ensures legal { IsLegal JMAX (plain_history U.meaning self.now.journal) }
        ensures places { HasPlaces JMAX (plain_history U.meaning self.now.journal) }
    {
        self.live.journal.as_slice()
    }
}
