//! What memory holds for an intact instance.

ghost use Rattle.memory_laws.specs.Laws.{IntactHoldsClosure};

/// Memory has the closure of an intact instance, at every address that the closure maps.
pub fn intact_holds_closure()
    ensures { IntactHoldsClosure }
{}
