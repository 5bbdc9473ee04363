//! Jobs that are handed out.

ghost use Rattle.std.specs.Prelude.{◌≡◌, None};
ghost use Rattle.session_steps.specs.Performs.{Takes, state_of};
ghost use Rattle.session_steps.specs.Taken.{GivesUnit, BindsUnit};

use crate::entering::enter_silently;
use crate::places::check_places;
use crate::session::Session;
use orc_ids::{SeatNo, Stop};
use orc_io::Notify;
use session_model::{Entry, Event, Reply, UnitKind};
use session_steps::TakenUnit;

/// The answer of a take, and with a job its unit.
#[derive(Drop)]
pub struct Taken<U> {
    pub answer: Result<Reply, Stop>,
    pub unit: Option<TakenUnit<U>>,
}

impl<U: UnitKind> Taken<U> {
    /// No job was handed out.
    fn without(answer: Result<Reply, Stop>) -> Taken<U>
        ensures answer { result.answer ≡ answer }
        ensures unit { result.unit ≡ None }
    {
        Taken { answer, unit: None }
    }
}

impl<U: UnitKind, N: Notify, const JMAX: usize> Session<U, N, JMAX> {
    /// Hands the oldest job out to the seat, with its unit (ORC: `MaterializationTask`). Where none is
    /// listed it answers how many units are held, and nothing is written.
    pub fn take(&mut self, s: SeatNo) -> Taken<U>
        ensures performs { Takes U.meaning JMAX self.old.journal self.new.journal s result.answer }
        ensures unit_before { GivesUnit U.meaning (state_of U.meaning self.old.journal) result.answer result.unit }
        ensures unit { GivesUnit U.meaning (state_of U.meaning self.new.journal) result.answer result.unit }
        ensures bound { BindsUnit (state_of U.meaning self.new.journal) result.answer }
        ensures armed { self.new.armed ≡ self.old.armed }
    {
        let Some(job) = self.live.next_job() else {
            return Taken::without(Ok(Reply::Idle(self.live.held())));
        };
        if let Err(stop) = check_places::<U, N, JMAX>(&self.live, 2) {
            return Taken::without(Err(stop));
        }
        let Ok(handed) = self.live.hand_out(s, job) else {
            return Taken::without(Err(Stop::NoMemory));
        };
        let entry = Entry {
            seat: s,
            event: Event::Take,
            reply: handed.entry,
        };
        enter_silently::<U, N, JMAX>(&mut self.live, entry);
        Taken {
            answer: Ok(handed.reply),
            unit: Some(handed.unit),
        }
    }
}
