//! What an event leaves of the notes, and what it tells.
ghost use Rattle.history_laws.specs.Laws.{NoteIsAsked, EmptyIsNoted, QuietIsNoted, SettlingIsTold, LodgingIsTold, CollectIsNoted, TakeIsNoted};

use session_model::UnitKind;

/// A query's note is that of the entry which asked it.
pub fn note_is_asked()
    ensures { NoteIsAsked }
{}

/// A session with no entry has no notes.
pub fn empty_is_noted<N>()
    ensures { EmptyIsNoted N }
{}

/// An event that settles nothing leaves the notes as they are.
pub fn quiet_is_noted<U: UnitKind, N>()
    ensures { QuietIsNoted U.meaning N }
{}

/// An event that lodges no query has told the notes of those that it settled.
pub fn settling_is_told<U: UnitKind, N>()
    ensures { SettlingIsTold U.meaning N }
{}

/// So has one that may lodge a query, with a notifier of the event's note.
pub fn lodging_is_told<U: UnitKind, N>()
    ensures { LodgingIsTold U.meaning N }
{}

/// A collect leaves them, whatever it is answered.
pub fn collect_is_noted<U: UnitKind, N>()
    ensures { CollectIsNoted U.meaning N }
{}

/// A take leaves them, whatever it is answered.
pub fn take_is_noted<U: UnitKind, N>()
    ensures { TakeIsNoted U.meaning N }
{}
