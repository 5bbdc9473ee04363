//! Placements, and what a unit keeps.

ghost use Rattle.session_laws.specs.Placements.{PlacementsLieApart, LiveNamesStay};

/// The ranges of placed units lie in code memory, and apart.
pub fn placements_lie_apart()
    ensures { PlacementsLieApart }
{}

/// A unit that a lookup has asked for keeps its live names.
pub fn live_names_stay()
    ensures { LiveNamesStay }
{}
