//! Calls of a pass, each answered as it is to be.

ghost use Rattle.std.specs.Prelude.{◌≡◌, None, IfSome};
ghost use Rattle.turn_lock.specs.Handles.{turn_id, IsReady};

use execution_session::{Asked, Imaged, Told};
use notifiers::{Armed, FiredList};
use orc_ids::{
    DylibId, Level, NameId, ORDER_LIMIT, OrderItem, Stop, TrackId, UnitId, WANTED_LIMIT, Wanted,
};
use orc_io::Note;
use session_model::{Reply, UnitKind, Why};
use shared_session::{
    Ask, Attach, CopyMemory, Define, Fail, Handed, MakeDylib, Pass, Remove, SetOrder, Shared, Take,
};
use std::alloc::{AllocError, Global};
use std::sync::Wait;
use test_words::write_answer;

/// The answer is printed so.
pub(super) fn reads(alloc: Global, answer: Result<Reply, Stop>, text: &str) -> bool {
    let mut words = String::new(alloc);
    write_answer(&mut words, &answer).is_ok() && words.as_str() == text
}

/// Another handle to the first unit, if there is one and it is no alias.
fn share_of<U: UnitKind>(alloc: Global, units: &[U]) -> Option<U>
    ensures { IfSome result (λ unit. (U.meaning unit).source ≡ None) }
{
    let unit = units.first()?;
    if unit.source().is_some() {
        return None;
    }
    unit.share(alloc).ok()
}

/// A generator of the first unit is attached to the first dylib, and its unit is kept.
pub(super) fn attaches<U: UnitKind, R: Wait, const JMAX: usize>(
    rt: &R,
    alloc: Global,
    shared: &Shared<U, Note, JMAX>,
    pass: &mut Pass<U, Note, JMAX>,
    units: &[U],
    text: &str,
) -> bool
    requires { IsReady (turn_id shared.now) pass.old }
    ensures { IsReady (turn_id shared.now) pass.new }
{
    let Some(unit) = share_of(alloc, units) else {
        return false;
    };
    let attach = Attach {
        dylib: DylibId(0),
        tracker: TrackId(0),
        unit,
    };
    let attached = shared.perform(rt, pass, attach);
    attached.back.is_none() && reads(alloc, attached.answer, text)
}

/// The definition of the first unit finds the turn taken, and comes back whole: its unit still offers this name.
pub(super) fn is_handed_back<U: UnitKind, const JMAX: usize>(
    alloc: Global,
    shared: &Shared<U, Note, JMAX>,
    pass: &mut Pass<U, Note, JMAX>,
    units: &[U],
    name: NameId,
) -> bool
    requires { IsReady (turn_id shared.now) pass.old }
    ensures { IsReady (turn_id shared.now) pass.new }
{
    let Some(unit) = share_of(alloc, units) else {
        return false;
    };
    let define = Define {
        dylib: DylibId(3),
        tracker: TrackId(4),
        unit,
    };
    match shared.try_perform(pass, define) {
        Ok(_) => false,
        Err(back) => {
            back.dylib == DylibId(3) && back.tracker == TrackId(4) && offers(&back.unit, name)
        }
    }
}

/// The unit offers this one name.
fn offers<U: UnitKind>(unit: &U, name: NameId) -> bool {
    unit.count() == 1 && unit.offer(0).0 == name
}

/// The first dylib's order is set.
pub(super) fn sets_order<U: UnitKind, R: Wait, const JMAX: usize>(
    rt: &R,
    alloc: Global,
    shared: &Shared<U, Note, JMAX>,
    pass: &mut Pass<U, Note, JMAX>,
    order: &[OrderItem],
    text: &str,
) -> bool
    requires { IsReady (turn_id shared.now) pass.old }
    ensures { IsReady (turn_id shared.now) pass.new }
{
    if order.len() > ORDER_LIMIT {
        return false;
    }
    let dylib = DylibId(0);
    let answer = shared.perform(rt, pass, SetOrder { dylib, order });
    reads(alloc, answer, text)
}

/// A notifier with this note, if there is to be one.
fn arm(alloc: Global, note: Option<u32>) -> Result<Option<Armed<Note>>, AllocError> {
    match note {
        Some(note) => Ok(Some(Armed::new(alloc, note, Note::new(note))?)),
        None => Ok(None),
    }
}

/// The answer of an ask; whom it settles is told, and a notifier that it hands back is let go.
fn answer_of(asked: Asked<Note>, heard: &mut FiredList<Note>) -> Result<Reply, Stop> {
    let Asked {
        answer,
        back,
        fires,
    } = asked;
    fires.fire_all(heard);
    if let Some(armed) = back {
        let _object = armed.back();
    }
    answer
}

/// The names are looked up in the order at the level.
pub(super) fn asks<U: UnitKind, R: Wait, const JMAX: usize>(
    rt: &R,
    alloc: Global,
    shared: &Shared<U, Note, JMAX>,
    pass: &mut Pass<U, Note, JMAX>,
    heard: &mut FiredList<Note>,
    note: Option<u32>,
    order: &[OrderItem],
    wanted: &[Wanted],
    level: Level,
    text: &str,
) -> bool
    requires { IsReady (turn_id shared.now) pass.old }
    ensures { IsReady (turn_id shared.now) pass.new }
{
    if order.len() > ORDER_LIMIT || wanted.len() > WANTED_LIMIT {
        return false;
    }
    let Ok(then) = arm(alloc, note) else {
        return false;
    };
    let ask = Ask {
        order,
        wanted,
        level,
        then,
    };
    let asked = shared.perform(rt, pass, ask);
    reads(alloc, answer_of(asked, heard), text)
}

/// The memory, where nothing is, is copied.
pub(super) fn copies<U: UnitKind, R: Wait, const JMAX: usize>(
    rt: &R,
    shared: &Shared<U, Note, JMAX>,
    pass: &mut Pass<U, Note, JMAX>,
) -> bool
    requires { IsReady (turn_id shared.now) pass.old }
    ensures { IsReady (turn_id shared.now) pass.new }
{
    let Imaged { answer, image } = shared.perform(rt, pass, CopyMemory);
    let Some(image) = image else {
        return false;
    };
    matches!(answer, Ok(Reply::Image)) && image.count() == 0
}

/// The pass takes the first unit, with the responsibility for it.
pub(super) fn takes<U: UnitKind, R: Wait, const JMAX: usize>(
    rt: &R,
    alloc: Global,
    shared: &Shared<U, Note, JMAX>,
    pass: &mut Pass<U, Note, JMAX>,
    text: &str,
) -> bool
    requires { IsReady (turn_id shared.now) pass.old }
    ensures { IsReady (turn_id shared.now) pass.new }
{
    let Handed {
        answer,
        unit,
        responsibility,
    } = shared.perform(rt, pass, Take);
    let charged = match responsibility {
        Some(responsibility) => {
            let unit = responsibility.unit();
            responsibility.spend();
            unit == UnitId(0)
        }
        None => false,
    };
    charged && unit.is_some() && reads(alloc, answer, text)
}

/// What was answered; whom that settles is told.
fn tell(told: Told<Note>, heard: &mut FiredList<Note>) -> Result<Reply, Stop> {
    let Told { answer, fires } = told;
    fires.fire_all(heard);
    answer
}

/// It gives the first unit up for want of memory; whom that settles is told.
pub(super) fn gives_up<U: UnitKind, R: Wait, const JMAX: usize>(
    rt: &R,
    alloc: Global,
    shared: &Shared<U, Note, JMAX>,
    pass: &mut Pass<U, Note, JMAX>,
    heard: &mut FiredList<Note>,
    text: &str,
) -> bool
    requires { IsReady (turn_id shared.now) pass.old }
    ensures { IsReady (turn_id shared.now) pass.new }
{
    let fail = Fail {
        unit: UnitId(0),
        why: Why::NoMemory,
    };
    let failed = tell(shared.perform(rt, pass, fail), heard);
    reads(alloc, failed, text)
}

/// What the tracker has is removed; whom that settles is told.
pub(super) fn removes<U: UnitKind, R: Wait, const JMAX: usize>(
    rt: &R,
    alloc: Global,
    shared: &Shared<U, Note, JMAX>,
    pass: &mut Pass<U, Note, JMAX>,
    heard: &mut FiredList<Note>,
    tracker: TrackId,
    text: &str,
) -> bool
    requires { IsReady (turn_id shared.now) pass.old }
    ensures { IsReady (turn_id shared.now) pass.new }
{
    let removed = tell(shared.perform(rt, pass, Remove { tracker }), heard);
    reads(alloc, removed, text)
}

/// A dylib is made, for the turn is free.
pub(super) fn tries_dylib<U: UnitKind, const JMAX: usize>(
    alloc: Global,
    shared: &Shared<U, Note, JMAX>,
    pass: &mut Pass<U, Note, JMAX>,
    text: &str,
) -> bool
    requires { IsReady (turn_id shared.now) pass.old }
    ensures { IsReady (turn_id shared.now) pass.new }
{
    let name = NameId(7);
    match shared.try_perform(pass, MakeDylib { name }) {
        Ok(made) => reads(alloc, made, text),
        Err(_) => false,
    }
}
