//! What follows of what is told.

ghost use Rattle.instances.specs.Graph.{TellsOn};

/// What is told by two changes, one after the other, is told by both together.
pub fn tells_on()
    ensures { TellsOn }
{}
