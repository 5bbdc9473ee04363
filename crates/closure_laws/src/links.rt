//! What the link query of a unit matched.

ghost use Rattle.closure_laws.specs.Links.{LinksAreLookups, BoundByName, UnboundIsWeak};

/// The link query of a unit is a lookup of its externals, none of which was refused.
pub fn links_are_lookups()
    ensures { LinksAreLookups }
{}

/// An external is bound to an instance of its name.
pub fn bound_by_name()
    ensures { BoundByName }
{}

/// Only a weak external is bound to none.
pub fn unbound_is_weak()
    ensures { UnboundIsWeak }
{}
