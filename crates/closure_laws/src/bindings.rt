//! Addresses stay, and so do the bindings of a unit.

ghost use Rattle.closure_laws.specs.Bindings.{AddressesStay, FailuresStay, BindingsAreEnds, BindingsAreMatches, BoundAddressesAreKept};

/// An instance that has an address keeps it, or it fails.
pub fn addresses_stay()
    ensures { AddressesStay }
{}

/// An instance that failed stays so.
pub fn failures_stay()
    ensures { FailuresStay }
{}

/// The bindings of a unit are the end of its link query.
pub fn bindings_are_ends()
    ensures { BindingsAreEnds }
{}

/// A unit is bound to the instances that its link query matched.
pub fn bindings_are_matches()
    ensures { BindingsAreMatches }
{}

/// An instance that is bound has the address that it is bound at, or failed since.
pub fn bound_addresses_are_kept()
    ensures { BoundAddressesAreKept }
{}
