//! One call on a session, and what it is answered.

ghost use Rattle.std.specs.Prelude.{◌≤◌, length};
ghost use Rattle.orc_ids.specs.declared.limits.TheConstants.{ORDER_LIMIT, WANTED_LIMIT};

use super::SEAT;
use super::units::Named;
use execution_session::{Asked, Imaged, Offered, Session, Taken, Told, emit_taken, place_taken};
use notifiers::{Armed, FiredList, Fires};
use orc_ids::{
    DylibId, GenId, Level, NameId, ORDER_LIMIT, OrderItem, Outcome, QueryId, Scope, SeatNo, Stop,
    TrackId, UnitId, WANTED_LIMIT, Wanted,
};
use orc_io::Note;
use session_model::{Finishing, Reply, Why};
use std::alloc::{AllocError, Global};
use test_words::{write_answer, write_heard};

/// A session of the tests' units.
pub(super) type Tried<const JMAX: usize> = Session<Named, Note, JMAX>;

/// One call, with its arguments.
#[derive(Clone, Copy)]
pub(super) enum Call<'a> {
    /// A dylib of this name is made.
    Dylib(u32),
    /// A tracker of the dylib is made.
    Tracker(u32),
    /// The dylib gets this link order.
    SetOrder(u32, &'a [OrderItem]),
    /// A generator of the unit is made, in the dylib and for the tracker.
    Attach(u32, u32, Named),
    /// The unit is defined, in the dylib and for the tracker.
    Define(u32, u32, Named),
    /// The unit of the generator is defined.
    Generate(u32),
    /// The names are looked up in the order, up to the level, with a notifier of this note if there is one.
    Ask(&'a [OrderItem], &'a [Wanted], Level, Option<u32>),
    /// The name is looked up in the first dylib, up to Ready, with a notifier of this note if there is one.
    LookUp(u32, Option<u32>),
    /// The query's end is taken.
    Collect(u32),
    /// The oldest job is taken.
    Take,
    /// `SEAT` takes the oldest job, which is to start this unit, and the caller places the unit.
    TakeAndPlace(u32),
    /// `SEAT` takes the oldest job, which is to finish a unit, and the caller places the unit again.
    TakeAndPlaceAgain,
    /// `SEAT` takes the oldest job, which is to finish a unit, and the caller emits the unit.
    TakeAndEmit,
    /// The first unit is resolved.
    Resolve,
    /// The externals of the first unit are looked up.
    Link,
    /// The first unit is given up for want of memory.
    Fail,
    /// The second tracker gets what the first has.
    MoveTracker(u32, u32),
    /// What the tracker has is removed.
    Remove(u32),
    /// The memory is copied.
    Image,
}

/// What a call is answered.
#[derive(Drop)]
pub(super) struct Answer {
    pub(super) reply: Result<Reply, Stop>,
    /// What is handed out or handed back with the reply, in words.
    pub(super) beside: &'static str,
    /// The number of the notifier that is told, and what it has heard, if one is told.
    told: Option<(u32, Option<Outcome>)>,
}

impl Answer {
    /// Writes the answer as it stands in a table.
    pub(super) fn print(&self, text: &mut String) -> Result<(), AllocError> {
        let Answer {
            reply,
            beside,
            told,
        } = self;
        write_answer(text, reply)?;
        write!(text, "{beside}")?;
        match told {
            None => Ok(()),
            Some((number, heard)) => {
                write!(text, ", {number} hears ")?;
                write_heard(text, heard)
            }
        }
    }
}

/// A reply that nothing comes with.
fn bare(reply: Result<Reply, Stop>) -> Option<Answer> {
    with(reply, false, "")
}

/// A reply, and these words if something comes with it.
fn with(reply: Result<Reply, Stop>, is_there: bool, words: &'static str) -> Option<Answer> {
    Some(Answer {
        reply,
        beside: if is_there { words } else { "" },
        told: None,
    })
}

/// A reply, and whom it tells, which is one notifier at most.
fn telling(reply: Result<Reply, Stop>, beside: &'static str, fires: Fires<Note>) -> Option<Answer> {
    let mut heard = FiredList::new();
    fires.fire_all(&mut heard);
    let told = match heard.pop() {
        None => None,
        Some((_, fired)) => {
            let object = fired.object();
            Some((object.number, object.outcome))
        }
    };
    if heard.pop().is_some() {
        return None;
    }
    Some(Answer {
        reply,
        beside,
        told,
    })
}

/// The reply of a call that may tell someone.
fn told(told: Told<Note>) -> Option<Answer> {
    let Told { answer, fires } = told;
    telling(answer, "", fires)
}

/// The reply to a unit, which may come back.
fn offered(offered: Offered<Named>) -> Option<Answer> {
    with(offered.answer, offered.back.is_some(), ", unit back")
}

/// Whether a notifier is there, which is given up.
fn give_up(then: Option<Armed<Note>>) -> bool {
    match then {
        Some(armed) => {
            let _object = armed.back();
            true
        }
        None => false,
    }
}

/// The reply of a lookup, whose notifier may come back.
fn asked(asked: Asked<Note>) -> Option<Answer> {
    let Asked {
        answer,
        back,
        fires,
    } = asked;
    let words = if give_up(back) { ", notifier back" } else { "" };
    telling(answer, words, fires)
}

/// A notifier of this note, if there is one.
fn arm(alloc: Global, note: Option<u32>) -> Result<Option<Armed<Note>>, AllocError> {
    match note {
        Some(note) => Ok(Some(Armed::new(alloc, note, Note::new(note))?)),
        None => Ok(None),
    }
}

/// The names are looked up in the order, which are no more than a session takes.
fn ask<const JMAX: usize>(
    alloc: Global,
    session: &mut Tried<JMAX>,
    s: SeatNo,
    order: &[OrderItem],
    wanted: &[Wanted],
    level: Level,
    note: Option<u32>,
) -> Option<Answer> {
    if order.len() > ORDER_LIMIT || wanted.len() > WANTED_LIMIT {
        return None;
    }
    let Ok(then) = arm(alloc, note) else {
        return None;
    };
    asked(session.ask(s, order, wanted, level, then))
}

/// The name is looked up in the first dylib.
fn look_up<const JMAX: usize>(
    alloc: Global,
    session: &mut Tried<JMAX>,
    s: SeatNo,
    name: u32,
    note: Option<u32>,
) -> Option<Answer> {
    let item = OrderItem {
        dylib: DylibId(0),
        scope: Scope::All,
    };
    let wanted = Wanted {
        name: NameId(name),
        weak: false,
    };
    ask(alloc, session, s, &[item], &[wanted], Level::Ready, note)
}

/// The dylib gets the link order, which is no longer than a session takes.
fn set_order<const JMAX: usize>(
    session: &mut Tried<JMAX>,
    s: SeatNo,
    d: u32,
    order: &[OrderItem],
) -> Option<Answer> {
    if order.len() > ORDER_LIMIT {
        return None;
    }
    bare(session.set_order(s, DylibId(d), order))
}

/// The oldest job is taken.
fn take<const JMAX: usize>(session: &mut Tried<JMAX>, s: SeatNo) -> Option<Answer> {
    let Taken { answer, unit } = session.take(s);
    with(answer, unit.is_some(), ", with its unit")
}

/// The unit of this number, which is to start, is taken, and placed by this seat.
fn take_and_place<const JMAX: usize>(
    session: &mut Tried<JMAX>,
    s: SeatNo,
    number: u32,
) -> Option<Answer> {
    let Taken { answer, unit } = session.take(SEAT);
    let Ok(Reply::Start(u)) = answer else {
        return bare(answer);
    };
    if u.0 != number {
        return None;
    }
    bare(place_taken(session, s, u, &unit?))
}

/// A unit is taken with its bindings, and placed again by this seat.
fn take_and_place_again<const JMAX: usize>(session: &mut Tried<JMAX>, s: SeatNo) -> Option<Answer> {
    let Taken { answer, unit } = session.take(SEAT);
    let Ok(Reply::Finish(u, _)) = answer else {
        return bare(answer);
    };
    bare(place_taken(session, s, u, &unit?))
}

/// A unit is taken with its bindings, and emitted by this seat.
fn take_and_emit<const JMAX: usize>(
    alloc: Global,
    session: &mut Tried<JMAX>,
    s: SeatNo,
) -> Option<Answer> {
    let Taken { answer, unit } = session.take(SEAT);
    let Ok(Reply::Finish(u, Finishing::Bound(bound))) = answer else {
        return bare(answer);
    };
    told(emit_taken(alloc, session, s, u, &unit?, &bound)?)
}

/// The memory is copied, in which there is one unit of 48 bytes.
fn copy_memory<const JMAX: usize>(session: &mut Tried<JMAX>, s: SeatNo) -> Option<Answer> {
    let Imaged { answer, image } = session.image(s);
    let Some(image) = image else {
        return bare(answer);
    };
    let is_unit = image.count() == 1
        && image.base(0) == 0x1000_0000
        && image.bytes(0) == [7; 48].as_slice();
    with(answer, is_unit, " of the unit")
}

/// Makes the call as this seat. There is no answer where a list is too long, where a job is of another unit,
/// where more than one notifier is told, and where memory runs out.
pub(super) fn make<const JMAX: usize>(
    alloc: Global,
    session: &mut Tried<JMAX>,
    s: SeatNo,
    call: Call,
) -> Option<Answer> {
    match call {
        Call::Dylib(name) => bare(session.dylib(s, NameId(name))),
        Call::Tracker(d) => bare(session.tracker(s, DylibId(d))),
        Call::SetOrder(d, order) => set_order(session, s, d, order),
        Call::Attach(d, t, unit) => offered(session.attach(s, DylibId(d), TrackId(t), unit)),
        Call::Define(d, t, unit) => offered(session.define(s, DylibId(d), TrackId(t), unit)),
        Call::Generate(g) => bare(session.generate(s, GenId(g))),
        Call::Ask(order, wanted, level, note) => {
            ask(alloc, session, s, order, wanted, level, note)
        }
        Call::LookUp(name, note) => look_up(alloc, session, s, name, note),
        Call::Collect(q) => bare(session.collect(s, QueryId(q))),
        Call::Take => take(session, s),
        Call::TakeAndPlace(u) => take_and_place(session, s, u),
        Call::TakeAndPlaceAgain => take_and_place_again(session, s),
        Call::TakeAndEmit => take_and_emit(alloc, session, s),
        Call::Resolve => told(session.resolve(s, UnitId(0))),
        Call::Link => told(session.link(s, UnitId(0))),
        Call::Fail => told(session.fail(s, UnitId(0), Why::NoMemory)),
        Call::MoveTracker(t, to) => bare(session.move_tracker(s, TrackId(t), TrackId(to))),
        Call::Remove(t) => told(session.remove(s, TrackId(t))),
        Call::Image => copy_memory(session, s),
    }
}
