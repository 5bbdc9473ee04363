//! What a unit is bound to, and what it has once it is done.

ghost use Rattle.closure_laws.specs.Bound.{DoneIsBound, DoneStays};

/// A unit that is done has a binding for each external, and a base where it wants one.
pub fn done_is_bound()
    ensures { DoneIsBound }
{}

/// A unit that is done stays so, with all that it has, until it is removed.
pub fn done_stays()
    ensures { DoneStays }
{}
