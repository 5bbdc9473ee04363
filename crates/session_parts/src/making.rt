//! Dylibs, trackers and generators that are made, and what goes from one tracker to another.

ghost use Rattle.std.specs.Prelude.{◌≡◌, ◌<◌, true, ℕ, length, slice_get, Some, IfOk, OnOk, IfErr, OnErr};
ghost use Rattle.orc_ids.specs.declared.limits.TheConstants.{DYLIB_LIMIT, GENERATOR_LIMIT};
ghost use Rattle.session_model.specs.Plain.{Plain, has_tracker, tracker_dylib};
ghost use Rattle.session_model.specs.Change.{changed, moved, spent};
ghost use Rattle.session_model.specs.declared.change.Change.TheVariants.{MakeDylib, MakeTracker, SetOrder, Attach};
ghost use Rattle.session_model.specs.declared.rows.InstRow.{InstRow};
ghost use Rattle.session_parts.specs.Parts.{AreParts, HaveDylibs};
ghost use Rattle.tracker.specs.Owners.{IsRefused};

use crate::parts::Parts;
use orc_ids::{DylibId, GenId, NameId, OrderItem, TrackId};
use orc_io::Notify;
use session_model::UnitKind;
use std::alloc::AllocError;
use tracker::TrackError;

impl<U: UnitKind, N: Notify> Parts<U, N> {
    /// There is one dylib more.
    pub fn make_dylib(&mut self, name: NameId) -> Result<(), AllocError>
        ghost m: { Plain }
        requires parts { AreParts U.meaning self.old m }
        requires homes { HaveDylibs m }
        requires few { length m.dylibs < DYLIB_LIMIT }
        ensures ok { OnOk result (AreParts U.meaning self.new (changed (MakeDylib name) m)) }
        ensures err { OnErr result (self.new ≡ self.old) }
        ensures rest { self.new ≡ record self.old { dylibs = self.new.dylibs } }
    {
        self.dylibs.make(name)
    }

    /// The dylib's link order is itself, and then these.
    pub fn set_order(&mut self, d: DylibId, order: &[OrderItem]) -> Result<(), AllocError>
        ghost m: { Plain }
        requires parts { AreParts U.meaning self.old m }
        requires there { d.0 < length m.dylibs }
        ensures ok { OnOk result (AreParts U.meaning self.new (changed (SetOrder d order.now) m)) }
        ensures err { OnErr result (self.new ≡ self.old) }
        ensures rest { self.new ≡ record self.old { dylibs = self.new.dylibs } }
    {
        self.dylibs.set_order(d, order)
    }

    /// There is one tracker more, of the dylib.
    pub fn make_tracker(&mut self, d: DylibId) -> Result<TrackId, TrackError>
        ghost m: { Plain }
        requires parts { AreParts U.meaning self.old m }
        ensures number { IfOk result (λ t. t.0 ≡ length m.trackers) }
        ensures ok { OnOk result (AreParts U.meaning self.new (changed (MakeTracker d) m)) }
        ensures refused { IfErr result (λ e. IsRefused self.old.trackers e) }
        ensures err { OnErr result (self.new ≡ self.old) }
        ensures rest { self.new ≡ record self.old { trackers = self.new.trackers } }
    {
        self.trackers.make(d)
    }

    /// The generator is spent; takes no memory.
    pub fn spend(&mut self, g: GenId)
        ghost m: { Plain }
        requires { AreParts U.meaning self.old m }
        ensures parts { AreParts U.meaning self.new (spent g.0 m) }
        ensures rest { self.new ≡ record self.old { generators = self.new.generators } }
    {
        self.generators.spend(g);
    }

    /// There is one generator more; a refusal for want of memory hands the unit back.
    pub fn attach(&mut self, d: DylibId, t: TrackId, unit: U) -> Result<GenId, U>
        ghost m: { Plain }
        requires parts { AreParts U.meaning self.old m }
        requires few { length m.generators < GENERATOR_LIMIT }
        requires tracker { has_tracker m t.0 ≡ true }
        ensures number { IfOk result (λ g. g.0 ≡ length m.generators) }
        ensures ok { OnOk result (AreParts U.meaning self.new (changed (Attach d t (U.meaning unit)) m)) }
        ensures back { IfErr result (λ back. back ≡ unit) }
        ensures err { OnErr result (AreParts U.meaning self.new m) }
        ensures rest { self.new ≡ record self.old { generators = self.new.generators; trackers = self.new.trackers } }
    {
        if self.generators.room(unit.count()).is_err() {
            return Err(unit);
        }
        let g = GenId(self.generators.len() as u32);
        if self.trackers.add_generator(t, g).is_err() {
            return Err(unit);
        }
        Ok(self.generators.attach(d, unit))
    }

    /// All that the first tracker has belongs to the second, in constant time.
    pub fn move_all(&mut self, t: TrackId, to: TrackId) -> Result<(), AllocError>
        ghost m: { Plain }
        requires parts { AreParts U.meaning self.old m }
        requires from { has_tracker m t.0 ≡ true }
        requires to { has_tracker m to.0 ≡ true }
        requires dylib { tracker_dylib m t.0 ≡ tracker_dylib m to.0 }
        ensures ok { OnOk result (AreParts U.meaning self.new (moved t.0 to.0 m)) }
        ensures err { OnErr result (self.new ≡ self.old) }
        ensures rest { self.new ≡ record self.old { trackers = self.new.trackers } }
    {
        self.trackers.merge(t, to)
    }
}
