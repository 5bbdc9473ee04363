//! Units whose instances are no longer present.

ghost use Rattle.std.specs.Prelude.{◌≡◌, ◌<◌, ℕ, All, true, map};
ghost use Rattle.orc_ids.specs.declared.ids.UnitId.{UnitId};
ghost use Rattle.instances.specs.Table as one;
ghost use Rattle.instances.specs.Table.{is_among, HasSameRooms};
ghost use Rattle.instances.specs.Removal.{is_gone, removed_row, AreListed};

use crate::Instances;
use crate::inst_set::InstSet;
use orc_ids::UnitId;
use std::collections::LinkedList;

/// None of the unit's instances is present any longer, and all are noted.
fn remove_unit(instances: &mut Instances, changed: &mut InstSet, u: UnitId)
    requires { u.0 < instances.old.units }
    ensures rows { instances.new ≡ record instances.old { rows = map (one.removed_row u.0) instances.old.rows } }
    ensures changed { AreListed (λ r. r.unit.0 ≡ u.0) instances.old.rows changed.old changed.new }
    ensures kept { (k : ℕ) → is_among changed.old.items k ≡ true → is_among changed.new.items k ≡ true }
    ensures places { changed.new.places ≡ changed.old.places }
{
    changed.add_span(instances.span(u));
    instances.remove(u);
}

/// None of the units' instances is present any longer, and all are noted.
pub(crate) fn remove_units(
    instances: &mut Instances,
    changed: &mut InstSet,
    gone: &LinkedList<UnitId>,
)
    requires { All (λ (u : UnitId). u.0 < instances.old.units) gone.now }
    ensures rows { instances.new.rows ≡ map (removed_row gone.now) instances.old.rows }
    ensures rooms { HasSameRooms instances.old instances.new }
    ensures changed { AreListed (λ r. is_gone gone.now r.unit.0 ≡ true) instances.old.rows changed.old changed.new }
    ensures kept { (k : ℕ) → is_among changed.old.items k ≡ true → is_among changed.new.items k ≡ true }
    ensures places { changed.new.places ≡ changed.old.places }
{
    for u in gone.iter() {
        remove_unit(instances, changed, *u);
    }
}
