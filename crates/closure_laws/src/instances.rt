//! The instances of a unit.

ghost use Rattle.closure_laws.specs.Instances.{InstancesAreLive, InstancesAreOffered, UnitsFit};

/// A unit has one instance for each of its live names, in order.
pub fn instances_are_live()
    ensures { InstancesAreLive }
{}

/// Each present instance is what its unit offers at its place.
pub fn instances_are_offered()
    ensures { InstancesAreOffered }
{}

/// The names, bindings and instances that a unit has fit it.
pub fn units_fit()
    ensures { UnitsFit }
{}
