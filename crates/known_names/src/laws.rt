//! Where the names of a journal come from.

ghost use Rattle.known_names.specs.Laws.{NamesAreKnown};

/// Each name of a legal history is one of the table where those are that its entries were given.
pub fn names_are_known()
    ensures { NamesAreKnown }
{}
