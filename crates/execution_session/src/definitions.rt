//! Units that are defined.

ghost use Rattle.std.specs.Prelude.{◌≡◌, false};
ghost use Rattle.session_model.specs.Answer.{HasSource};
ghost use Rattle.session_model.specs.declared.entry.Event.TheVariants as event;
ghost use Rattle.session_steps.specs.Given.{HandsBack};
ghost use Rattle.session_steps.specs.Performs.{state_of, lacks_places, Performs, PerformsWith};
ghost use Rattle.session_steps.specs.Rest.{Rests};

use crate::entering::enter_quietly;
use crate::places::check_places;
use crate::session::Session;
use crate::sharing::share_for_entry;
use orc_ids::{DylibId, GenId, SeatNo, Stop, TrackId};
use orc_io::Notify;
use session_model::{Event, Reply, UnitKind};
use session_steps::{Live, Offered};

/// Defines the unit, and enters what was answered, with this share of it.
fn define_shared<U: UnitKind, N: Notify, const JMAX: usize>(
    live: &mut Live<U, N>,
    s: SeatNo,
    d: DylibId,
    t: TrackId,
    unit: U,
    share: U,
) -> Offered<U>
    requires rest { Rests U.meaning JMAX live.old }
    requires source { HasSource (state_of U.meaning live.old.journal.items) (U.meaning unit) }
    requires same { U.meaning share ≡ U.meaning unit }
    requires place { lacks_places U.meaning JMAX live.old.journal.items 1 ≡ false }
    ensures rest { Rests U.meaning JMAX live.new }
    ensures performs { Performs U.meaning JMAX live.old.journal.items live.new.journal.items s (event.Define d t share) result.answer }
    ensures back { HandsBack U.meaning unit result.answer result.back }
    ensures armed { live.new.parts.book.armed ≡ live.old.parts.book.armed }
{
    let Offered { answer, back } = live.define(d, t, unit);
    let answer = match answer {
        Ok(reply) => {
            let event = Event::Define(d, t, share);
            Ok(enter_quietly::<U, N, JMAX>(live, s, event, reply))
        }
        Err(stop) => Err(stop),
    };
    Offered { answer, back }
}

impl<U: UnitKind, N: Notify, const JMAX: usize> Session<U, N, JMAX> {
    /// Defines the unit in the dylib, for the tracker (ORC: `JITDylib::define`); a unit that isn't defined is
    /// handed back.
    pub fn define(&mut self, s: SeatNo, d: DylibId, t: TrackId, unit: U) -> Offered<U>
        requires source { HasSource (state_of U.meaning self.old.journal) (U.meaning unit) }
        ensures performs { PerformsWith U.meaning JMAX self.old.journal self.new.journal s (λ share. event.Define d t share) unit result.answer }
        ensures back { HandsBack U.meaning unit result.answer result.back }
        ensures armed { self.new.armed ≡ self.old.armed }
    {
        match share_for_entry::<U, N, JMAX>(&self.live, &unit) {
            Ok(share) => define_shared::<U, N, JMAX>(&mut self.live, s, d, t, unit, share),
            Err(stop) => Offered {
                answer: Err(stop),
                back: Some(unit),
            },
        }
    }

    /// Defines the unit of the generator in its dylib, for its tracker (ORC:
    /// `DefinitionGenerator::tryToGenerate`). A generator is used once: it is spent too where its unit has a
    /// name that clashes, or where there are too many units.
    pub fn generate(&mut self, s: SeatNo, g: GenId) -> Result<Reply, Stop>
        ensures performs { Performs U.meaning JMAX self.old.journal self.new.journal s (event.Generate g) result }
        ensures armed { self.new.armed ≡ self.old.armed }
    {
        check_places::<U, N, JMAX>(&self.live, 1)?;
        let Ok(reply) = self.live.generate(g) else {
            return Err(Stop::NoMemory);
        };
        Ok(enter_quietly::<U, N, JMAX>(&mut self.live, s, Event::Generate(g), reply))
    }
}
