//! The laws.
ghost use Rattle.history_laws.specs.NoticeLaws.{EndedAreTold, ToldHaveEnded};

/// Each notifier that was told at a seat's calls was told the end of the query that was asked with its note.
pub fn told_have_ended<N>()
    ensures { ToldHaveEnded N }
{}

/// Where a note's query ended, an event that may end queries was called, and the note was told there.
pub fn ended_are_told<N>()
    ensures { EndedAreTold N }
{}
