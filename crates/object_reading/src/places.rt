//! A file that was written holds its parts.

ghost use Rattle.object_reading.specs.Places.{PartsAreHeld};

/// The file of a canonical object holds its parts.
pub fn parts_are_held()
    ensures { PartsAreHeld }
{}
