ghost use Rattle.std.specs.Prelude.{List};
ghost use Rattle.session_model.specs.declared.rows.InstRow.{InstRow};
ghost use Rattle.query_book.specs.Laws.{StandsAsTheSession, NobodyIsCurrent, SeenIsCurrent, HandingOutIsCurrent, CurrentIsTold, ChangeIsTold, ChangesAreOne};

use orc_io::Notify;

/// Over the rows of a session a query is met, and ends, as the session says: a law, which does
/// nothing.
pub fn stands_as_the_session()
    ensures { (rows : List InstRow) → StandsAsTheSession rows }
{}

/// A new book is current: a law, which does nothing.
pub fn nobody_is_current<N: Notify>()
    ensures { NobodyIsCurrent N }
{}

/// After a settling a book is current: a law, which does nothing.
pub fn seen_is_current<N: Notify>()
    ensures { SeenIsCurrent N }
{}

/// A book stays current where a unit or a notifier is handed out: a law, which does nothing.
pub fn handing_out_is_current<N: Notify>()
    ensures { HandingOutIsCurrent N }
{}

/// Where a book is current and nothing changed, nothing has to be told: a law, which does nothing.
pub fn current_is_told<N: Notify>()
    ensures { CurrentIsTold N }
{}

/// A change is told by telling the instances that changed, where the book was current before it: a
/// law, which does nothing.
pub fn change_is_told<N: Notify>()
    ensures { ChangeIsTold N }
{}

/// Two changes, one after the other, are one: a law, which does nothing.
pub fn changes_are_one<N: Notify>()
    ensures { ChangesAreOne N }
{}
