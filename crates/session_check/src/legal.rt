ghost use Rattle.std.specs.Prelude.{◌≡◌, ◌↔◌, ℕ, ◌<◌, ◌^◌, length, Some, None, IsTrue, IfOk};
ghost use Rattle.session_model.specs.History.{IsLegal};
ghost use Rattle.session_model.specs.State.{plain_history};
ghost use Rattle.session_check.specs.Wrong.{GoesWrongAt};

use crate::replay::{empty_session, play};
use crate::sample::Sample;
use session_model::Entry;
use session_past::Ends;
use std::alloc::{AllocError, Global};

/// The number, from 0, of the first entry whose reply isn't a right one after the entries before it;
/// none where the history is legal. The session counts its entries by 32 bits.
pub fn first_wrong<U: Sample>(
    alloc: Global,
    jmax: u64,
    history: &[Entry<U>],
) -> Result<Option<usize>, AllocError>
    requires { length history.now < 2 ^ 32 }
    ensures legal { IfOk result (λ wrong. (wrong ≡ None) ↔ IsLegal jmax (plain_history U.meaning history.now)) }
    ensures first { IfOk result (λ wrong. (k : ℕ) → (wrong ≡ Some k) ↔ GoesWrongAt jmax (plain_history U.meaning history.now) k) }
{
    let mut s = empty_session(alloc);
    let mut ends: Ends = Vec::new(alloc);
    for (k, e) in history.iter().enumerate() {
        if !play(alloc, jmax, &history[..k], &mut s, &mut ends, e)? {
            return Ok(Some(k));
        }
    }
    Ok(None)
}

/// Whether the history is legal in a journal of so many places. The session counts its entries by
/// 32 bits.
pub fn is_legal<U: Sample>(
    alloc: Global,
    jmax: u64,
    history: &[Entry<U>],
) -> Result<bool, AllocError>
    requires { length history.now < 2 ^ 32 }
    ensures { IfOk result (λ legal. IsTrue legal ↔ IsLegal jmax (plain_history U.meaning history.now)) }
{
    Ok(first_wrong(alloc, jmax, history)?.is_none())
}
