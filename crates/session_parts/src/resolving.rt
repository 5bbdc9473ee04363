//! Units whose instances get their addresses.

ghost use Rattle.std.specs.Prelude.{◌≡◌, ◌<◌, ℕ, [], true, length, slice_get, Some, unwrap_or};
ghost use Rattle.session_model.specs.Answer.{can_resolve};
ghost use Rattle.session_model.specs.Lists.{changed_at, first_some};
ghost use Rattle.session_model.specs.Plain.{Plain, UnitRow, is_owned};
ghost use Rattle.session_model.specs.Change.{resolved};
ghost use Rattle.session_model.specs.declared.rows.InstRow.{InstRow};
ghost use Rattle.session_laws.specs.Sound.{IsSound};
ghost use Rattle.instances.specs.Graph.{Tells};
ghost use Rattle.session_parts.specs.Parts.{AreParts};
ghost use Rattle.session_parts.specs.Addressed.{bound_address, alias_target, gone_on};

use crate::parts::Parts;
use mat_unit::{Unit, Units};
use orc_ids::{InstId, UnitId};
use orc_io::Notify;
use session_model::{Matches, UnitKind};

/// The first address of these.
fn first_address(bound: &[Option<(InstId, u64)>]) -> u64
    ensures { result ≡ unwrap_or (first_some bound_address bound.now) 0 }
{
    for found in bound {
        if let Some((_, address)) = found {
            return *address;
        }
    }
    0
}

/// The address that an alias with these bindings was bound to.
fn target_address(bound: &Option<Matches>) -> u64
    ensures { result ≡ unwrap_or (first_some bound_address (unwrap_or bound.now [])) 0 }
{
    match bound {
        Some(bound) => first_address(bound.as_slice()),
        None => 0,
    }
}

/// The address that an alias was bound to; none of any other unit.
fn alias_target<U: UnitKind>(unit: &Unit<U>) -> Option<u64>
    ensures { result ≡ alias_target U.meaning unit.now }
{
    unit.unit.source()?;
    Some(target_address(&unit.bound))
}

/// An alias takes its target's address for its base; any other unit is linked next.
fn go_on<U>(units: &mut Units<U>, u: UnitId, target: Option<u64>)
    requires { u.0 < length units.old.units }
    ensures { units.new ≡ record units.old { units = changed_at u.0 (gone_on target) units.old.units } }
{
    match target {
        Some(base) => units.bind(u, base),
        None => units.resolve(u),
    }
}

impl<U: UnitKind, N: Notify> Parts<U, N> {
    /// Each instance of the unit gets its address, which an alias has of its target. Takes no memory.
    pub fn resolve(&mut self, u: UnitId)
        ghost m: { Plain }
        requires parts { AreParts U.meaning self.old m }
        requires sound { IsSound m }
        requires right { (x : UnitRow) × (slice_get m.units u.0 ≡ Some x) × (can_resolve x ≡ true) }
        requires offers { (i : ℕ) (r : InstRow) (x : UnitRow) → slice_get m.rows i ≡ Some r → is_owned u.0 r ≡ true → slice_get m.units u.0 ≡ Some x → r.offer < length x.meaning.offers }
        ensures parts { AreParts U.meaning self.new (resolved u.0 m) }
        ensures tells { Tells self.old.graph self.new.graph }
        ensures rest { self.new ≡ record self.old { graph = self.new.graph; units = self.new.units } }
    {
        if let Some(unit) = self.units.get(u) {
            let target = alias_target(unit);
            let base = target.or(unit.base).unwrap_or(0);
            self.graph.resolve(u, &unit.unit, base);
            go_on(&mut self.units, u, target);
        }
    }
}
