//! What is done with the value in one turn.
ghost use Rattle.std.specs.Prelude.{◌≡◌, ℕ, List, [], ◌∷◌, ◌++◌, ◌⊎◌};
ghost use Rattle.turn_lock.specs.Lists.{entries_of};

use crate::counted::Counted;

/// A call on a value with a history, which makes one entry of the caller's seat or none.
pub trait Call<T: Counted> {
    /// What it answers.
    type Answer;

    /// Whether a seat may make it after these entries.
    ghost may: { Self → ℕ → List T.Entry → Type 0 };

    /// What it does, made by a seat: from these entries to those, with this answer.
    ghost does: { Self → ℕ → List T.Entry → List T.Entry → Self.Answer → Type 0 };

    /// Makes the call.
    fn make(self, value: &mut T, seat: u32) -> Self::Answer
        requires lawful { T.lawful (T.history value.old) }
        requires may { may self seat (T.history value.old) }
        ensures { does self seat (T.history value.old) (T.history value.new) result };

    /// Entries of other seats leave it allowed.
    ghost stays_allowed: { (c : Self) (s : ℕ) (h more : List T.Entry) → T.lawful (h ++ more) → entries_of T.seat_of s more ≡ [] → may c s h → may c s (h ++ more) };

    /// It makes one entry of its seat at most.
    ghost one_at_most: { (c : Self) (s : ℕ) (old new : List T.Entry) (a : Self.Answer) → does c s old new a → (new ≡ old) ⊎ ((e : T.Entry) × (new ≡ old ++ e ∷ []) × (T.seat_of e ≡ s)) };
}
