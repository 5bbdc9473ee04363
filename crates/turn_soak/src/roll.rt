//! A roll of turns.
ghost use Rattle.std.specs.Prelude.{◌≡◌, ◌<◌, ◌+◌, ◌++◌, ◌∷◌, [], length, vec_len, OnOk, OnErr};
ghost use Rattle.std.proofs.Common.{◌∙◌, sym, subst};
ghost use Rattle.std.proofs.Math.Nat.{lt_trans};
ghost use Rattle.std.proofs.Math.Numerals.{lt-add-one};
ghost use Rattle.std.proofs.lemmas.List.{length-append};

use std::alloc::{AllocError, Global};
use turn_lock::Counted;

/// One turn: which seat took it, and which of the seat's turns it is, from 0.
#[derive(Clone, Copy, Debug, PartialEq, Eq)]
pub struct Mark {
    pub seat: u32,
    pub turn: u32,
}

/// The turns that were taken, in order.
#[derive(Drop)]
pub struct Roll {
    marks: Vec<Mark>,
}

impl Counted for Roll {
    type Entry = Mark;

    ghost history = { λ roll. roll.marks.items };

    ghost seat_of = { λ mark. mark.seat };

    ghost lawful = { λ _. Unit {0} };

    // A roll of more than `k` turns gives the number `k` the word `k + 1`.
    ghost posted = { λ log k v. (k < length log) × (v ≡ k + 1) };

    fn history_len(&self) -> u64 {
        self.marks.len() as u64
    }

    ghost lawful_before = { λ _ _ _. tt };

    ghost stays_posted = { λ before e k _ _ posted. (subst (λ n. k < n) (sym (length-append before (e ∷ []))) (lt_trans posted.0 (lt-add-one (length before))), posted.1) };

    ghost posted_once = { λ _ _ _ _ _ one other. one.1 ∙ sym other.1 };
}

impl Roll {
    /// A roll with no turn.
    pub fn new(alloc: Global) -> Roll
        ensures { result.marks.items ≡ [] }
    {
        Roll {
            marks: Vec::new(alloc),
        }
    }

    /// The number of turns.
    pub fn len(&self) -> usize
        ensures { result ≡ vec_len self.now.marks }
    {
        self.marks.len()
    }

    /// One more turn.
    pub fn note(&mut self, mark: Mark) -> Result<(), AllocError>
        ensures noted { OnOk result (self.new.marks.items ≡ self.old.marks.items ++ mark ∷ []) }
        ensures stays { OnErr result (self.new.marks.items ≡ self.old.marks.items) }
    {
        self.marks.push(mark)?;
        Ok(())
    }

    /// Whether the seat's turns are those from 0 up to below `turns`, each once and in order.
    pub fn has_all(&self, seat: u32, turns: u32) -> bool {
        let mut next = 0;
        for mark in self.marks.iter().filter(|mark| mark.seat == seat) {
            if mark.turn != next {
                return false;
            }
            next = mark.turn.saturating_add(1);
        }
        next == turns
    }
}
