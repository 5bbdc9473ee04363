//! What follows an entry: queries settle, and units that waited for them are linked.

ghost use Rattle.std.specs.Prelude.{◌≡◌, ℕ, [], length, slice_get, Some};
ghost use Rattle.session_model.specs.Plain.{Plain, UnitRow};
ghost use Rattle.session_model.specs.Query.{stand_at};
ghost use Rattle.session_model.specs.Change.{finish_listed, settled};
ghost use Rattle.session_model.specs.declared.rows.UnitPhase.TheVariants as stage;
ghost use Rattle.query_book.specs.Ledger as book;
ghost use Rattle.query_book.specs.Ledger.{fires_of, IsSeen, IsTold};
ghost use Rattle.session_parts.specs.Dues.{linked_due, all_linked, WaitsOpen, WaitsOwn};
ghost use Rattle.session_parts.specs.Ends.{noted};
ghost use Rattle.session_parts.specs.Parts.{AreParts};

use crate::parts::Parts;
use notifiers::Fires;
use orc_ids::UnitId;
use orc_io::Notify;
use session_model::{UnitKind, UnitPhase};

impl<U: UnitKind, N: Notify> Parts<U, N> {
    /// The Finish of a unit that waited is listed.
    fn list_finish(&mut self, u: UnitId)
        requires { (m : Plain) × (x : UnitRow) × AreParts U.meaning self.old m × (slice_get m.units u.0 ≡ Some x) × (x.phase ≡ stage.Waiting) }
        ensures parts { (m : Plain) (x : UnitRow) → AreParts U.meaning self.old m → slice_get m.units u.0 ≡ Some x → x.phase ≡ stage.Waiting → AreParts U.meaning self.new (finish_listed u.0 m) }
        ensures rest { self.new ≡ record self.old { units = self.new.units } }
    {
        self.units.link(u);
    }

    /// The unit of a link query that settled is linked, if it still waits.
    fn link_due(&mut self, u: UnitId)
        requires { (m : Plain) × AreParts U.meaning self.old m }
        ensures parts { (m : Plain) → AreParts U.meaning self.old m → AreParts U.meaning self.new (linked_due u m) }
        ensures rest { self.new ≡ record self.old { units = self.new.units } }
    {
        if let Some(unit) = self.units.get(u) {
            if matches!(unit.phase, UnitPhase::Waiting) {
                self.list_finish(u);
            }
        }
    }

    /// The units of the link queries that settled are linked, in order.
    fn link_all(&mut self)
        requires { (m : Plain) × AreParts U.meaning self.old m }
        ensures parts { (m : Plain) → AreParts U.meaning self.old m → AreParts U.meaning self.new (all_linked self.old.book.due m) }
        ensures book { self.new.book ≡ record self.old.book { due = [] } }
        ensures rest { self.new ≡ record self.old { units = self.new.units; book = self.new.book } }
    {
        while let Some(u) = self.book.next_unit() {
            self.link_due(u);
        }
    }

    /// What follows an entry: the open queries that are met now end, in rising number, each notifier to be
    /// told its own end, and the units of the link queries among them are linked, in order. It looks at the
    /// queries of the instances that changed alone, and takes no memory.
    pub fn settle(&mut self, at: u64) -> Fires<N>
        ghost m: { Plain }
        requires parts { AreParts U.meaning self.old m }
        requires queries { self.old.book.queries ≡ m.queries }
        requires counted { length self.old.book.ends ≡ length m.queries }
        requires told { IsTold (stand_at m.rows) self.old.graph.changed self.old.book }
        requires open { WaitsOpen m self.old.book.ends }
        requires own { WaitsOwn m.queries m.units }
        requires handed_out { self.old.book.due ≡ [] }
        ensures parts { AreParts U.meaning self.new (settled m) }
        ensures ends { self.new.book.ends ≡ noted (record m { entries = at }) m.queries self.old.book.ends }
        ensures queries { self.new.book.queries ≡ m.queries }
        ensures handed_out { self.new.book.due ≡ [] }
        ensures seen { IsSeen (stand_at m.rows) self.new.book }
        ensures fires { result ≡ fires_of at (stand_at m.rows) self.old.book }
        ensures armed { self.new.book.armed ≡ (book.settled at (stand_at m.rows) self.old.book).armed }
        ensures told { self.new.graph.changed ≡ [] }
    {
        let fires = self.book.settle(at, self.graph.changed(), &self.graph);
        self.graph.clear();
        self.link_all();
        fires
    }
}
