//! The ends of instances.

ghost use Rattle.memory_laws.specs.Ends.{EndsAreOne, EndsExist, EndsStandThere};

/// In a session whose aliases have the form of one, an instance that has an address has an end.
pub fn ends_exist()
    ensures { EndsExist }
{}

/// An instance has one end at most, in any session.
pub fn ends_are_one()
    ensures { EndsAreOne }
{}

/// The end of an instance stands at the instance's address, unless it failed since.
pub fn ends_stand_there()
    ensures { EndsStandThere }
{}
