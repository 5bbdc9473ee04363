//! What is written is read.

ghost use Rattle.journal_text.specs.Laws.{LineIsRead, TextIsRead, EntryIsRead, HistoryIsRead};

/// From its line alone follows what an entry shows.
pub fn line_is_read()
    ensures { LineIsRead }
{}

/// From a text alone follows what its entries show.
pub fn text_is_read()
    ensures { TextIsRead }
{}

/// From its line and the entries before it follows the whole entry.
pub fn entry_is_read()
    ensures { EntryIsRead }
{}

/// From the text of a legal history follows the history.
pub fn history_is_read()
    ensures { HistoryIsRead }
{}
