ghost use Rattle.std.specs.Prelude.{◌↔◌, ◌<◌, ◌^◌, ◌++◌, ◌∷◌, [], length, IsTrue, IfOk};
ghost use Rattle.session_model.specs.Answer.{Answers};
ghost use Rattle.session_model.specs.State.{plain_entry, plain_event, plain_history};
ghost use Rattle.session_check.specs.Replay.{LedTo};
ghost use Rattle.session_plain.specs.Meant.{meant};

use crate::answers::is_right;
use crate::sample::Sample;
use session_model::{Entry, UnitKind};
use session_past::{Ends, empty_is_fit, fit_stays, fit_suits, update_ends};
use session_plain::{PlainSession, enter};
use std::alloc::{AllocError, Global};

/// The session before its first entry.
pub fn empty_session<U: UnitKind>(alloc: Global) -> PlainSession<U>
    ensures { LedTo [] (meant U.meaning result) [] }
{
    empty_is_fit();
    PlainSession {
        entries: 0,
        dylibs: Vec::new(alloc),
        trackers: Vec::new(alloc),
        rows: Vec::new(alloc),
        units: Vec::new(alloc),
        generators: Vec::new(alloc),
        queries: Vec::new(alloc),
        jobs: Vec::new(alloc),
    }
}

/// The next entry is played, if its reply is right.
pub fn play<U: Sample>(
    alloc: Global,
    jmax: u64,
    past: &[Entry<U>],
    s: &mut PlainSession<U>,
    ends: &mut Ends,
    e: &Entry<U>,
) -> Result<bool, AllocError>
    requires led { LedTo (plain_history U.meaning past.now) (meant U.meaning s.old) ends.old.items }
    requires counted { length past.now < 2 ^ 32 }
    ensures right { IfOk result (λ right. IsTrue right ↔ Answers jmax (plain_history U.meaning past.now) (meant U.meaning s.old) e.now.seat.0 (plain_event U.meaning e.now.event) e.now.reply) }
    ensures led { IfOk result (λ right. IsTrue right → LedTo (plain_history U.meaning past.now ++ plain_entry U.meaning e.now ∷ []) (meant U.meaning s.new) ends.new.items) }
{
    fit_suits::<U>();
    if !is_right(alloc, jmax, past, s, ends, e)? {
        return Ok(false);
    }
    enter(alloc, s, e)?;
    update_ends(alloc, s, ends)?;
    fit_stays();
    Ok(true)
}
