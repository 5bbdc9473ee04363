//! What a call leaves a seat knowing.
ghost use Rattle.shared_session.specs.ReadyWords.{ReadyWordsStand};
ghost use Rattle.shared_session.specs.SharedCalls.{CallsAreShared};

use session_model::UnitKind;

/// An event that was answered by an entry is the last of what the seat has seen, and of its own list;
/// one that was stopped was stopped rightly, by what the seat has seen.
pub fn calls_are_shared<U: UnitKind>()
    ensures { CallsAreShared U.meaning }
{}

/// An instance that a pass has seen ready stays so, at its address: a word that it was told stands in
/// every history that begins with what it has seen, and so in that of the session that is closed.
pub fn ready_words_stand<U: UnitKind>()
    ensures { ReadyWordsStand U.meaning }
{}
