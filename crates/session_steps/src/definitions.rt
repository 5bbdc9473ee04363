//! A unit that is defined.

ghost use Rattle.std.specs.Prelude.{◌≡◌, ℕ, false, length, Some, IfOk, OnOk, IfErr, OnErr};
ghost use Rattle.orc_ids.specs.declared.lookup.Stop.TheVariants as stop;
ghost use Rattle.session_model.specs.Plain.{Plain};
ghost use Rattle.session_model.specs.Answer.{HasSource};
ghost use Rattle.session_model.specs.Change.{spent};
ghost use Rattle.session_model.specs.declared.entry.Event.TheVariants as event;
ghost use Rattle.closure_laws.specs.Homes.{UnspentAreThere};
ghost use Rattle.session_parts.specs.Parts.{AreParts};
ghost use Rattle.session_replies.specs.Accepted.{AcceptsGenerate};
ghost use Rattle.session_steps.specs.Generated.{lacks_room, IsClash, IsReady};
ghost use Rattle.session_steps.specs.Given.{undefined_answer, HandsBack};
ghost use Rattle.session_steps.specs.Moved.{IsStill};
ghost use Rattle.session_steps.specs.Stands.{Stands};
ghost use Rattle.session_steps.specs.Steps.{IsQuietStep};

use crate::live::Live;
use crate::offered::Offered;
use jit_dylib::DefineError;
use orc_ids::{DylibId, GenId, Stop, TrackId};
use orc_io::Notify;
use session_model::{Reply, UnitKind};
use session_parts::Undefined;
use session_replies::{lacks_room, refuse_define, refuse_generate};
use std::alloc::AllocError;

/// What the generator would define: a share of its unit, in its dylib and for its tracker.
#[derive(Drop)]
struct Generated<U> {
    dylib: DylibId,
    tracker: TrackId,
    unit: U,
}

/// The answer to a unit whose names weren't taken, which is handed back.
fn answer_undefined<U>(undefined: Undefined<U>) -> Offered<U>
    ensures answer { result.answer ≡ undefined_answer undefined.why }
    ensures back { result.back ≡ Some undefined.unit }
{
    let answer = match undefined.why {
        DefineError::Duplicate(name, i) => Ok(Reply::Duplicate(name, i)),
        DefineError::NoMemory => Err(Stop::NoMemory),
    };
    Offered {
        answer,
        back: Some(undefined.unit),
    }
}

impl<U: UnitKind, N: Notify> Live<U, N> {
    /// Defines the unit, or hands it back with why it isn't defined.
    pub fn define(&mut self, d: DylibId, t: TrackId, unit: U) -> Offered<U>
        ghost m: { Plain }
        requires stands { Stands U.meaning m self.old.parts }
        requires source { HasSource m (U.meaning unit) }
        ensures step { IfOk result.answer (λ r. (s : ℕ) → IsQuietStep U.meaning m s (event.Define d t (U.meaning unit)) r self.old.parts self.new.parts) }
        ensures still { OnErr result.answer (IsStill U.meaning m self.old.parts self.new.parts) }
        ensures why { IfErr result.answer (λ why. why ≡ stop.NoMemory) }
        ensures back { HandsBack U.meaning unit result.answer result.back }
        ensures rest { self.new ≡ record self.old { parts = self.new.parts } }
    {
        // for its law
        unit.known();
        if let Some(refusal) = refuse_define(&self.parts, d, t, unit.count()) {
            return Offered {
                answer: Ok(refusal),
                back: Some(unit),
            };
        }
        match self.parts.define(d, t, unit) {
            Ok(new) => Offered {
                answer: Ok(Reply::Defined(new.unit, new.first, new.count)),
                back: None,
            },
            Err(undefined) => answer_undefined(undefined),
        }
    }
}

impl<U: UnitKind, N: Notify> Live<U, N> {
    /// The generator is spent where its unit has a name that clashes.
    fn spend_clashing(&mut self, g: GenId, why: DefineError) -> Result<Reply, AllocError>
        ghost m: { Plain }
        requires parts { AreParts U.meaning self.old.parts m }
        ensures clash { IfOk result (IsClash why) }
        ensures spent { OnOk result (AreParts U.meaning self.new.parts (spent g.0 m)) }
        ensures still { OnErr result (self.new ≡ self.old) }
        ensures rest { self.new ≡ record self.old { parts = record self.old.parts { generators = self.new.parts.generators } } }
    {
        let DefineError::Duplicate(name, i) = why else {
            return Err(AllocError);
        };
        self.parts.spend(g);
        Ok(Reply::Duplicate(name, i))
    }

    /// Defines the unit of the generator, for which there is room, and spends the generator.
    fn define_generated(&mut self, g: GenId, unit: Generated<U>) -> Result<Reply, AllocError>
        ghost m: { Plain }
        requires stands { Stands U.meaning m self.old.parts }
        requires ready { IsReady m g unit.dylib unit.tracker (U.meaning unit.unit) }
        requires room { lacks_room m (length (U.meaning unit.unit).offers) ≡ false }
        ensures step { IfOk result (λ r. (s : ℕ) → IsQuietStep U.meaning m s (event.Generate g) r self.old.parts self.new.parts) }
        ensures still { OnErr result (IsStill U.meaning m self.old.parts self.new.parts) }
        ensures rest { self.new ≡ record self.old { parts = self.new.parts } }
    {
        let Generated {
            dylib,
            tracker,
            unit,
        } = unit;
        match self.parts.define(dylib, tracker, unit) {
            Ok(new) => {
                self.parts.spend(g);
                Ok(Reply::Defined(new.unit, new.first, new.count))
            }
            Err(undefined) => self.spend_clashing(g, undefined.why),
        }
    }
}

impl<U: UnitKind, N: Notify> Live<U, N> {
    /// A share of the unit of a generator that isn't spent, with its dylib and its tracker.
    fn generated(&self, g: GenId) -> Result<Generated<U>, AllocError>
        ghost m: { Plain }
        requires parts { AreParts U.meaning self.now.parts m }
        requires unspent { UnspentAreThere m }
        requires accepted { AcceptsGenerate m g }
        ensures { IfOk result (λ x. IsReady m g x.dylib x.tracker (U.meaning x.unit)) }
    {
        let generator = self.parts.generators.get(g).unwrap();
        let tracker = self.parts.trackers.owner(g).unwrap();
        let unit = generator.unit.share(self.parts.alloc)?;
        Ok(Generated {
            dylib: generator.dylib,
            tracker,
            unit,
        })
    }

    /// Spends the generator, and defines its unit where it isn't too many.
    fn define_ready(&mut self, g: GenId, unit: Generated<U>) -> Result<Reply, AllocError>
        ghost m: { Plain }
        requires stands { Stands U.meaning m self.old.parts }
        requires ready { IsReady m g unit.dylib unit.tracker (U.meaning unit.unit) }
        ensures step { IfOk result (λ r. (s : ℕ) → IsQuietStep U.meaning m s (event.Generate g) r self.old.parts self.new.parts) }
        ensures still { OnErr result (IsStill U.meaning m self.old.parts self.new.parts) }
        ensures rest { self.new ≡ record self.old { parts = self.new.parts } }
    {
        if lacks_room(&self.parts, unit.unit.count()) {
            self.parts.spend(g);
            return Ok(Reply::TooMany);
        }
        self.define_generated(g, unit)
    }

    /// Spends the generator and defines its unit, or refuses that.
    pub fn generate(&mut self, g: GenId) -> Result<Reply, AllocError>
        ghost m: { Plain }
        requires stands { Stands U.meaning m self.old.parts }
        requires unspent { UnspentAreThere m }
        ensures step { IfOk result (λ r. (s : ℕ) → IsQuietStep U.meaning m s (event.Generate g) r self.old.parts self.new.parts) }
        ensures still { OnErr result (IsStill U.meaning m self.old.parts self.new.parts) }
        ensures rest { self.new ≡ record self.old { parts = self.new.parts } }
    {
        if let Some(refusal) = refuse_generate(&self.parts, g) {
            return Ok(refusal);
        }
        match self.generated(g) {
            Ok(unit) => self.define_ready(g, unit),
            Err(e) => Err(e),
        }
    }
}
