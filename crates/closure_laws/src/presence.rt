//! Instances that stay present.

ghost use Rattle.closure_laws.specs.Presence.{SearchedStayPresent};

/// A present instance that was searched stays present, until its unit is removed.
pub fn searched_stay_present()
    ensures { SearchedStayPresent }
{}
