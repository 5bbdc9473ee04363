//! The link query of a unit, of which it has one at most.

ghost use Rattle.closure_laws.specs.Queries.{UnlinkedHasNoQuery, UnitIsLinkedOnce, LinkedUnitIsThere};

/// A unit has no query before it is linked.
pub fn unlinked_has_no_query()
    ensures { UnlinkedHasNoQuery }
{}

/// A query that links a unit is the one that the unit has.
pub fn unit_is_linked_once()
    ensures { UnitIsLinkedOnce }
{}

/// The unit that a query links is there.
pub fn linked_unit_is_there()
    ensures { LinkedUnitIsThere }
{}
