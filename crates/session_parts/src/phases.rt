//! Units that go on from one phase to the next.

ghost use Rattle.std.specs.Prelude.{◌≡◌, ◌⊎◌, true, slice_get, Some};
ghost use Rattle.session_model.specs.Lists.{changed_at};
ghost use Rattle.session_model.specs.Plain.{Plain, UnitRow, is_alias};
ghost use Rattle.session_model.specs.Change.{taken_start, taken_finish, bindings_of, let_go, waiting_unit};
ghost use Rattle.session_model.specs.declared.entry.Finishing.{Finishing};
ghost use Rattle.session_model.specs.declared.rows.UnitPhase.TheVariants as stage;
ghost use Rattle.session_parts.specs.Parts.{AreParts};

use crate::parts::Parts;
use orc_ids::{QueryId, SeatNo, UnitId};
use orc_io::Notify;
use session_model::{Matches, UnitKind};

impl<U: UnitKind, N: Notify> Parts<U, N> {
    /// The seat takes the unit's job Start, which is the oldest.
    pub fn start(&mut self, s: SeatNo, u: UnitId)
        ghost m: { Plain }
        requires parts { AreParts U.meaning self.old m }
        requires listed { (x : UnitRow) × (slice_get m.units u.0 ≡ Some x) × (x.phase ≡ stage.Listed) }
        ensures parts { AreParts U.meaning self.new (taken_start s.0 u.0 m) }
        ensures rest { self.new ≡ record self.old { units = self.new.units } }
    {
        self.units.start(u, s);
    }

    /// The seat takes the unit's job Finish, which is the oldest, with the unit's bindings.
    pub fn finish(&mut self, s: SeatNo, u: UnitId, bound: Option<Matches>)
        ghost m: { Plain }
        requires parts { AreParts U.meaning self.old m }
        requires linked { (x : UnitRow) × (slice_get m.units u.0 ≡ Some x) × (x.phase ≡ stage.Linked) }
        ensures parts { (how : Finishing) → bindings_of how ≡ bound → AreParts U.meaning self.new (taken_finish s.0 u.0 how m) }
        ensures rest { self.new ≡ record self.old { units = self.new.units } }
    {
        self.units.finish(u, s, bound);
    }

    /// The seat, which was told that the unit is gone, doesn't hold it any longer.
    pub fn let_go(&mut self, s: SeatNo, u: UnitId)
        ghost m: { Plain }
        requires parts { AreParts U.meaning self.old m }
        requires there { (x : UnitRow) × (slice_get m.units u.0 ≡ Some x) }
        ensures parts { AreParts U.meaning self.new (let_go s.0 u.0 m) }
        ensures rest { self.new ≡ record self.old { units = self.new.units } }
    {
        self.units.let_go(u, s);
    }

    /// The unit waits for its link query.
    pub fn wait(&mut self, u: UnitId, query: QueryId)
        ghost m: { Plain }
        requires parts { AreParts U.meaning self.old m }
        requires right { (x : UnitRow) × (slice_get m.units u.0 ≡ Some x) × ((x.phase ≡ stage.Linking) ⊎ ((x.phase ≡ stage.Started) × (is_alias x ≡ true))) }
        ensures parts { AreParts U.meaning self.new (record m { units = changed_at u.0 (waiting_unit query.0) m.units }) }
        ensures rest { self.new ≡ record self.old { units = self.new.units } }
    {
        self.units.wait(u, query);
    }
}
