//! A generator that is made.

ghost use Rattle.std.specs.Prelude.{◌≡◌, ℕ, IfOk, IfErr, OnErr};
ghost use Rattle.orc_ids.specs.declared.lookup.Stop.TheVariants as stop;
ghost use Rattle.session_model.specs.Plain.{Plain};
ghost use Rattle.session_model.specs.Answer.{HasSource};
ghost use Rattle.session_model.specs.declared.entry.Event.TheVariants as event;
ghost use Rattle.session_steps.specs.Given.{HandsBackGenerator};
ghost use Rattle.session_steps.specs.Moved.{IsStill};
ghost use Rattle.session_steps.specs.Stands.{Stands};
ghost use Rattle.session_steps.specs.Steps.{IsQuietStep};

use crate::live::Live;
use crate::offered::Offered;
use orc_ids::{DylibId, Stop, TrackId};
use orc_io::Notify;
use session_model::{Reply, UnitKind};
use session_replies::refuse_attach;

impl<U: UnitKind, N: Notify> Live<U, N> {
    /// Makes a generator of the unit, or refuses it and hands the unit back.
    pub fn attach(&mut self, d: DylibId, t: TrackId, unit: U) -> Offered<U>
        ghost m: { Plain }
        requires stands { Stands U.meaning m self.old.parts }
        requires source { HasSource m (U.meaning unit) }
        ensures step { IfOk result.answer (λ r. (s : ℕ) → IsQuietStep U.meaning m s (event.Attach d t (U.meaning unit)) r self.old.parts self.new.parts) }
        ensures stop { IfErr result.answer (λ why. why ≡ stop.NoMemory) }
        ensures still { OnErr result.answer (IsStill U.meaning m self.old.parts self.new.parts) }
        ensures back { HandsBackGenerator U.meaning unit result.answer result.back }
        ensures rest { self.new ≡ record self.old { parts = self.new.parts } }
    {
        if let Some(refusal) = refuse_attach(&self.parts, d, t) {
            return Offered {
                answer: Ok(refusal),
                back: Some(unit),
            };
        }
        // for its law
        unit.known();
        match self.parts.attach(d, t, unit) {
            Ok(g) => Offered {
                answer: Ok(Reply::Generator(g)),
                back: None,
            },
            Err(unit) => Offered {
                answer: Err(Stop::NoMemory),
                back: Some(unit),
            },
        }
    }
}
