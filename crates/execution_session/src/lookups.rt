//! Names that are looked up.

ghost use Rattle.std.specs.Prelude.{◌≡◌, ◌≤◌, [], length, IfOk};
ghost use Rattle.orc_ids.specs.declared.limits.TheConstants.{ORDER_LIMIT, WANTED_LIMIT};
ghost use Rattle.session_model.specs.declared.entry.Event.TheVariants as event;
ghost use Rattle.session_parts.specs.Lodged.{note_of};
ghost use Rattle.session_steps.specs.Performs.{Performs};
ghost use Rattle.session_steps.specs.Fires.{FiresAsked};
ghost use Rattle.session_steps.specs.Lookups.{BacksNotifier};

use crate::entering::enter_stirring;
use crate::places::check_places;
use crate::session::{Asked, Session};
use notifiers::{Armed, Fires};
use orc_ids::{Items, Level, OrderItem, SeatNo, Stop, Wanted};
use orc_io::Notify;
use session_model::{Event, Reply, UnitKind};
use session_parts::note_of;
use std::alloc::{AllocError, Global};

/// The event of a lookup, for its entry.
fn ask_event<U: UnitKind>(
    alloc: Global,
    order: &[OrderItem],
    wanted: &[Wanted],
    level: Level,
    note: Option<u32>,
) -> Result<Event<U>, AllocError>
    ensures { IfOk result (λ e. e ≡ event.Ask order.now wanted.now level note) }
{
    let order = Items::from_vec(order.to_vec(alloc)?);
    let wanted = Items::from_vec(wanted.to_vec(alloc)?);
    Ok(Event::Ask(order, wanted, level, note))
}

impl<U: UnitKind, N: Notify, const JMAX: usize> Session<U, N, JMAX> {
    /// Looks the names up, and tells whom that settles.
    fn ask_telling(
        &mut self,
        s: SeatNo,
        order: &[OrderItem],
        wanted: &[Wanted],
        level: Level,
        then: &mut Option<Armed<N>>,
        fires: &mut Fires<N>,
    ) -> Result<Reply, Stop>
        requires order { length order.now ≤ ORDER_LIMIT }
        requires wanted { length wanted.now ≤ WANTED_LIMIT }
        requires nobody { fires.old ≡ [] }
        ensures performs { Performs U.meaning JMAX self.old.journal self.new.journal s (event.Ask order.now wanted.now level (note_of then.old)) result }
        ensures fires { FiresAsked U.meaning then.old result self.old self.new fires.new }
        ensures back { BacksNotifier then.old result then.new }
    {
        check_places::<U, N, JMAX>(&self.live, 1)?;
        let note = note_of(then);
        let Ok(event) = ask_event(self.live.parts.alloc, order, wanted, level, note) else {
            return Err(Stop::NoMemory);
        };
        let Ok(reply) = self.live.look_up(order, wanted, level, then) else {
            return Err(Stop::NoMemory);
        };
        Ok(enter_stirring::<U, N, JMAX>(&mut self.live, s, event, reply, fires))
    }

    /// Looks the names up in the order: a query waits until each match is at the level, and its notifier
    /// hears of its end. Names that are refused lodge no query (ORC: `ExecutionSession::lookup`).
    pub fn ask(
        &mut self,
        s: SeatNo,
        order: &[OrderItem],
        wanted: &[Wanted],
        level: Level,
        then: Option<Armed<N>>,
    ) -> Asked<N>
        requires order { length order.now ≤ ORDER_LIMIT }
        requires wanted { length wanted.now ≤ WANTED_LIMIT }
        ensures performs { Performs U.meaning JMAX self.old.journal self.new.journal s (event.Ask order.now wanted.now level (note_of then)) result.answer }
        ensures fires { FiresAsked U.meaning then result.answer self.old self.new result.fires }
        ensures back { BacksNotifier then result.answer result.back }
    {
        let mut back = then;
        let mut fires = Fires::new();
        let answer = self.ask_telling(s, order, wanted, level, &mut back, &mut fires);
        Asked {
            answer,
            back,
            fires,
        }
    }
}
