//! What emitted instances depend on.

ghost use Rattle.closure_laws.specs.Dependencies.{DependenciesAreKept};

/// An emitted instance has the dependencies of its group, and its unit is done.
pub fn dependencies_are_kept()
    ensures { DependenciesAreKept }
{}
