//! Generators that are attached.

ghost use Rattle.std.specs.Prelude.{◌≡◌, false};
ghost use Rattle.session_model.specs.Answer.{HasSource};
ghost use Rattle.session_model.specs.declared.entry.Event.TheVariants as event;
ghost use Rattle.session_steps.specs.Given.{HandsBackGenerator};
ghost use Rattle.session_steps.specs.Performs.{lacks_places, state_of, Performs, PerformsWith};
ghost use Rattle.session_steps.specs.Rest.{Rests};

use crate::entering::enter_quietly;
use crate::session::Session;
use crate::sharing::share_for_entry;
use orc_ids::{DylibId, SeatNo, TrackId};
use orc_io::Notify;
use session_model::{Event, UnitKind};
use session_steps::{Live, Offered};

/// Makes a generator of the unit and enters it with this share, or hands the unit back.
fn enter_attached<U: UnitKind, N: Notify, const JMAX: usize>(
    live: &mut Live<U, N>,
    s: SeatNo,
    d: DylibId,
    t: TrackId,
    unit: U,
    share: U,
) -> Offered<U>
    requires rest { Rests U.meaning JMAX live.old }
    requires source { HasSource (state_of U.meaning live.old.journal.items) (U.meaning unit) }
    requires same { U.meaning share ≡ U.meaning unit }
    requires place { lacks_places U.meaning JMAX live.old.journal.items 1 ≡ false }
    ensures rest { Rests U.meaning JMAX live.new }
    ensures performs { Performs U.meaning JMAX live.old.journal.items live.new.journal.items s (event.Attach d t share) result.answer }
    ensures back { HandsBackGenerator U.meaning unit result.answer result.back }
    ensures armed { live.new.parts.book.armed ≡ live.old.parts.book.armed }
{
    let Offered { answer, back } = live.attach(d, t, unit);
    let answer = match answer {
        Ok(reply) => Ok(enter_quietly::<U, N, JMAX>(live, s, Event::Attach(d, t, share), reply)),
        Err(stop) => Err(stop),
    };
    Offered { answer, back }
}

impl<U: UnitKind, N: Notify, const JMAX: usize> Session<U, N, JMAX> {
    /// Attaches the unit to the dylib as a generator (ORC: `JITDylib::addGenerator`). Where no
    /// generator is made of it the unit is handed back.
    pub fn attach(&mut self, s: SeatNo, d: DylibId, t: TrackId, unit: U) -> Offered<U>
        requires source { HasSource (state_of U.meaning self.old.journal) (U.meaning unit) }
        ensures performs { PerformsWith U.meaning JMAX self.old.journal self.new.journal s (λ share. event.Attach d t share) unit result.answer }
        ensures back { HandsBackGenerator U.meaning unit result.answer result.back }
        ensures armed { self.new.armed ≡ self.old.armed }
    {
        match share_for_entry::<U, N, JMAX>(&self.live, &unit) {
            Ok(share) => enter_attached::<U, N, JMAX>(&mut self.live, s, d, t, unit, share),
            Err(stop) => Offered {
                answer: Err(stop),
                back: Some(unit),
            },
        }
    }
}
