//! What a session keeps of its units' work.

ghost use Rattle.session_laws.specs.Keeps.{AddressesAreKept};

/// A present instance has its unit's address.
pub fn addresses_are_kept()
    ensures { AddressesAreKept }
{}
