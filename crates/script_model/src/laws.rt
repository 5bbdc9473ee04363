//! What follows of the dylibs of a history.
ghost use Rattle.script_model.specs.Dylibs.{DylibsAreMade};

/// Dylibs with names of their own, no more than may be, are all made.
pub fn dylibs_are_made()
    ensures { DylibsAreMade }
{}
