//! Where aliases stand.

ghost use Rattle.closure_laws.specs.Aliases.{AliasesStand};

/// An alias that has a base is bound to one instance, at that address.
pub fn aliases_stand()
    ensures { AliasesStand }
{}
