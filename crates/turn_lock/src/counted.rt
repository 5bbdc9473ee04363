//! What the turn goes round with.
ghost use Rattle.std.specs.Prelude.{◌≡◌, ◌≢◌, ℕ, List, [], ◌∷◌, ◌++◌, length};

/// A value with a history: a list of entries that grows at its end, one by one.
pub trait Counted {
    /// One entry of the history.
    type Entry;

    /// All entries so far, the oldest first.
    ghost history: { Self → List Self.Entry };

    /// The number of the seat that made an entry.
    ghost seat_of: { Self.Entry → ℕ };

    /// Whether a list of entries may be a history.
    ghost lawful: { List Self.Entry → Type 0 };

    /// What a history shows for good: that it gave `v` to the number `k`.
    ghost posted: { List Self.Entry → ℕ → ℕ → Type 0 };

    /// The number of entries, which a value keeps at hand. Each value's history is lawful.
    fn history_len(&self) -> u64
        ensures length { result ≡ length (history self.now) }
        ensures lawful { lawful (history self.now) };

    /// What a lawful history begins with is lawful.
    ghost lawful_before: { (before more : List Self.Entry) → lawful (before ++ more) → lawful before };

    /// What is posted stays posted when the history grows by an entry and is still lawful.
    ghost stays_posted: { (before : List Self.Entry) (e : Self.Entry) (k v : ℕ) → lawful (before ++ e ∷ []) → posted before k v → posted (before ++ e ∷ []) k v };

    /// A number is given one thing at most.
    ghost posted_once: { (log : List Self.Entry) (k v w : ℕ) → lawful log → posted log k v → posted log k w → v ≡ w };
}
