//! The names of a dylib.

ghost use Rattle.closure_laws.specs.Names.{NamesAreOnce};

/// A name has one present instance in each dylib at most.
pub fn names_are_once()
    ensures { NamesAreOnce }
{}
