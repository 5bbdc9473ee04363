//! Units that get a range, fill it, or give it back.

ghost use Rattle.std.specs.Prelude.{◌≡◌, ◌<◌, true, None, length, slice_get, Some, flat_map, IsPermutation, IsSome, IsSomeAnd, IfOk, OnOk, IfErr, OnErr};
ghost use Rattle.std.specs.Int.{IsPowerOfTwo};
ghost use Rattle.session_model.specs.Meaning.{IsLawful};
ghost use Rattle.session_model.specs.Plain.{Plain, UnitRow, unit_shape, own_rows};
ghost use Rattle.session_model.specs.Change.{placed, emitted, failed};
ghost use Rattle.session_model.specs.Memory.{unit_image};
ghost use Rattle.session_model.specs.declared.rows.UnitPhase.TheVariants as stage;
ghost use Rattle.code_memory.specs.Places.{AreLaidOut, IsLowestFree, IsRefused, placement_of, with_bytes, with_range, without};
ghost use Rattle.mat_unit.specs.declared.unit.Unit.{Unit as OneUnit};
ghost use Rattle.instances.specs.Graph.{Tells, NoneEmitted};
ghost use Rattle.session_parts.specs.Parts.{AreParts, is_ranged, IsDoneTo};

use crate::parts::Parts;
use code_memory::{Space, SpaceError};
use mat_unit::{Unit, Units};
use orc_ids::{Bytes, Group, Shape, UnitId};
use orc_io::Notify;
use session_model::UnitKind;
use std::alloc::AllocError;

/// Whether the unit has a range: an alias has a base without one.
fn is_ranged<U: UnitKind>(unit: &Unit<U>) -> bool
    ensures { result ≡ is_ranged U.meaning unit.now }
{
    unit.base.is_some() && unit.unit.source().is_none()
}

/// The unit's range, if it has one, is free.
pub(crate) fn free<U: UnitKind>(units: &Units<U>, space: &mut Space, u: UnitId)
    requires placed { (x : OneUnit U) → slice_get units.now.units u.0 ≡ Some x → is_ranged U.meaning x ≡ true → IsSome (placement_of space.old u) }
    ensures { IsDoneTo U.meaning units.now.units u space.old (without space.old u) space.new }
{
    if let Some(unit) = units.get(u) {
        if is_ranged(unit) {
            space.free(u);
        }
    }
}

impl<U: UnitKind, N: Notify> Parts<U, N> {
    /// The unit gets the lowest free range of this shape.
    pub fn place(&mut self, u: UnitId, shape: Shape) -> Result<u64, SpaceError>
        ghost m: { Plain }
        requires parts { AreParts U.meaning self.old m }
        requires started { (x : UnitRow) × (slice_get m.units u.0 ≡ Some x) × (x.phase ≡ stage.Started) × (x.base ≡ None) × (unit_shape x ≡ Some shape) }
        requires need { 0 < shape.need }
        requires align { IsPowerOfTwo shape.align }
        ensures ok { IfOk result (λ base. AreParts U.meaning self.new (placed u.0 base m)) }
        ensures lowest { IfOk result (λ base. IsLowestFree self.old.space shape base) }
        ensures refused { IfErr result (λ e. IsRefused self.old.space shape e) }
        ensures space { IfOk result (λ base. self.new.space ≡ with_range self.old.space u shape base) }
        ensures laid_out { AreLaidOut self.new.space }
        ensures err { OnErr result (self.new ≡ self.old) }
        ensures rest { self.new ≡ record self.old { units = self.new.units; space = self.new.space } }
    {
        let base = self.space.place(u, shape)?;
        self.units.place(u, base);
        Ok(base)
    }

    /// The unit's range, if it has one, has these bytes.
    fn deposit(&mut self, u: UnitId, bytes: Bytes)
        requires fits { (x : OneUnit U) → slice_get self.old.units.units u.0 ≡ Some x → is_ranged U.meaning x ≡ true → IsSomeAnd (placement_of self.old.space u) (λ p. length bytes ≡ p.shape.need) }
        ensures rest { self.new ≡ record self.old { space = self.new.space } }
        ensures done { IsDoneTo U.meaning self.old.units.units u self.old.space (with_bytes self.old.space u bytes) self.new.space }
    {
        if let Some(unit) = self.units.get(u) {
            if is_ranged(unit) {
                self.space.deposit(u, bytes);
            }
        }
    }

    /// The unit is done: its instances are emitted, and its range has its bytes.
    pub fn emit(&mut self, u: UnitId, groups: &[Group], bytes: Bytes) -> Result<(), AllocError>
        ghost m: { Plain }
        requires parts { AreParts U.meaning self.old m }
        requires finishing { (x : UnitRow) × (slice_get m.units u.0 ≡ Some x) × (x.phase ≡ stage.Finishing) × IsLawful x.meaning × (bytes ≡ unit_image x) }
        requires members { IsPermutation (flat_map (λ g. g.members) groups.now) (own_rows u.0 0 m.rows) }
        requires unemitted { NoneEmitted u.0 m.rows }
        ensures ok { OnOk result (AreParts U.meaning self.new (emitted u.0 groups.now m)) }
        ensures tells { Tells self.old.graph self.new.graph }
        ensures err { OnErr result (self.new ≡ self.old) }
        ensures rest { self.new ≡ record self.old { graph = self.new.graph; units = self.new.units; space = self.new.space } }
    {
        self.graph.emit(u, groups)?;
        self.deposit(u, bytes);
        self.units.done(u);
        Ok(())
    }

    /// The unit is given up: it fails, and what reaches it. Takes no memory.
    pub fn fail(&mut self, u: UnitId)
        ghost m: { Plain }
        requires parts { AreParts U.meaning self.old m }
        requires there { (x : UnitRow) × (slice_get m.units u.0 ≡ Some x) }
        requires unemitted { NoneEmitted u.0 m.rows }
        ensures parts { AreParts U.meaning self.new (failed u.0 m) }
        ensures tells { Tells self.old.graph self.new.graph }
        ensures rest { self.new ≡ record self.old { graph = self.new.graph; units = self.new.units; space = self.new.space } }
    {
        self.graph.fail(u);
        free(&self.units, &mut self.space, u);
        self.units.fail(u);
    }
}
