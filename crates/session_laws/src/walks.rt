//! The tests of readiness and of a hit are their definitions.

ghost use Rattle.session_laws.specs.Walks.{WalksSuffice, ReadyIsTested, HitIsTested, ClosedHoldsReached, ReachIsTransitive};

/// Walks no longer than the list of rows find all that is reached.
pub fn walks_suffice()
    ensures { WalksSuffice }
{}

/// The test of readiness is readiness.
pub fn ready_is_tested()
    ensures { ReadyIsTested }
{}

/// The test of a hit is a hit.
pub fn hit_is_tested()
    ensures { HitIsTested }
{}

/// A set closed under dependencies holds all that its members reach.
pub fn closed_holds_reached()
    ensures { ClosedHoldsReached }
{}

/// What is reached in two stretches is reached.
pub fn reach_is_transitive()
    ensures { ReachIsTransitive }
{}
