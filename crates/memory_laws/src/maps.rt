//! The map of a session's symbols, and the closures of its instances.

ghost use Rattle.memory_laws.specs.Maps.{BlocksAreThere, ClosuresAreThere, IntactEndsStandThere, MapIsThere};

/// The end of an intact instance has the instance's address.
pub fn intact_ends_stand_there()
    ensures { IntactEndsStandThere }
{}

/// An instance that has an address lies in the block that its end lies in, if that lies in one.
pub fn blocks_are_there()
    ensures { BlocksAreThere }
{}

/// The symbols of a session's units have a map.
pub fn map_is_there()
    ensures { MapIsThere }
{}

/// An intact instance has a closure, by each map of the symbols and from the block that its end lies in.
pub fn closures_are_there()
    ensures { ClosuresAreThere }
{}
