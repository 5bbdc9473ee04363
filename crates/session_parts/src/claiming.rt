//! Units that lookups ask for.

ghost use Rattle.std.specs.Prelude.{◌≡◌, true, slice_get, Some};
ghost use Rattle.session_model.specs.Plain.{Plain, UnitRow, present_at};
ghost use Rattle.session_model.specs.Change.{claimed, claimed_for, all_claimed};
ghost use Rattle.session_model.specs.declared.rows.UnitPhase.TheVariants as stage;
ghost use Rattle.session_laws.specs.Sound.{IsSound, AllMatched};
ghost use Rattle.instances.specs.Graph.{Tells};
ghost use Rattle.session_parts.specs.Parts.{AreParts};

use crate::parts::Parts;
use orc_ids::{InstId, UnitId};
use orc_io::Notify;
use session_model::UnitKind;

impl<U: UnitKind, N: Notify> Parts<U, N> {
    /// A lookup asks for the unit, as the first.
    fn claim(&mut self, u: UnitId)
        requires { (m : Plain) × (x : UnitRow) × AreParts U.meaning self.old m × (slice_get m.units u.0 ≡ Some x) × (x.phase ≡ stage.Unclaimed) }
        ensures parts { (m : Plain) (x : UnitRow) → AreParts U.meaning self.old m → slice_get m.units u.0 ≡ Some x → x.phase ≡ stage.Unclaimed → AreParts U.meaning self.new (claimed u.0 m) }
        ensures tells { Tells self.old.graph self.new.graph }
        ensures rest { self.new ≡ record self.old { graph = self.new.graph; units = self.new.units } }
    {
        self.graph.claim(u);
        self.units.list(u);
    }

    /// A lookup matched the instance: its unit is asked for, if it wasn't yet.
    fn claim_for(&mut self, i: InstId)
        requires { (m : Plain) × AreParts U.meaning self.old m × IsSound m × (present_at m.rows i.0 ≡ true) }
        ensures parts { (m : Plain) → AreParts U.meaning self.old m → IsSound m → present_at m.rows i.0 ≡ true → AreParts U.meaning self.new (claimed_for i m) }
        ensures tells { Tells self.old.graph self.new.graph }
        ensures rest { self.new ≡ record self.old { graph = self.new.graph; units = self.new.units } }
    {
        if let Some(u) = self.graph.unsearched_unit(i) {
            self.claim(u);
        }
    }

    /// A lookup matched these: their units are asked for that weren't yet, in order. Takes no memory.
    pub fn claim_all(&mut self, matched: &[Option<InstId>])
        ghost m: { Plain }
        requires parts { AreParts U.meaning self.old m }
        requires sound { IsSound m }
        requires here { AllMatched (λ i. present_at m.rows i ≡ true) matched.now }
        ensures parts { AreParts U.meaning self.new (all_claimed matched.now m) }
        ensures tells { Tells self.old.graph self.new.graph }
        ensures rest { self.new ≡ record self.old { graph = self.new.graph; units = self.new.units } }
    {
        for found in matched {
            if let Some(i) = found {
                self.claim_for(*i);
            }
        }
    }
}
