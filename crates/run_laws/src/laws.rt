//! How the lookup of a run ends, and how long its history is.

ghost use Rattle.run_laws.specs.Laws.{LookupEndsSo, RunIsShort};

/// The lookup of a run is found with one address, lost, or without a match.
pub fn lookup_ends_so()
    ensures { LookupEndsSo }
{}

/// Beyond its set-up the history has at most twelve entries for each unit, and three.
pub fn run_is_short()
    ensures { RunIsShort }
{}
