//! What holds of every such object.
ghost use Rattle.generated_objects.specs.Laws.{AreCanonical};

/// Each object is canonical.
pub fn generated_objects_are_canonical()
    ensures { AreCanonical }
{}
