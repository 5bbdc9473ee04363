//! Which names of a session are known.

ghost use Rattle.known_names.specs.SpokenLaws.{LoadedUnitsAreKnown, SpokenNamesAreKnown};

/// Each name of a legal history is one of the table where the calls of each seat speak of known names.
pub fn spoken_names_are_known()
    ensures { SpokenNamesAreKnown }
{}

/// The names of the units of files are those of the table that the files were loaded with.
pub fn loaded_units_are_known()
    ensures { LoadedUnitsAreKnown }
{}
