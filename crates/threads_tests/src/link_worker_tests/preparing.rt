//! What a pass does before a lookup: it makes a dylib with a tracker, and gives it units.

ghost use Rattle.std.specs.Prelude.{◌≡◌, None, IfSome};
ghost use Rattle.turn_lock.specs.Handles.{view, turn_id, IsReady};
ghost use Rattle.link_worker.specs.Works.{IsFree};

use link_worker::LinkedUnit;
use orc_ids::{DylibId, NameId, Stop, TrackId};
use orc_io::Note;
use session_model::{Reply, UnitKind};
use shared_session::{Attach, Define, MakeDylib, MakeTracker, Pass, Shared};
use std::alloc::Global;
use std::sync::Wait;

/// The first dylib is made.
pub(super) fn makes_dylib<U: LinkedUnit, R: Wait, const JMAX: usize>(
    rt: &R,
    shared: &Shared<U, Note, JMAX>,
    pass: &mut Pass<U, Note, JMAX>,
) -> Result<Reply, Stop>
    requires ready { IsReady (turn_id shared.now) pass.old }
    requires free { IsFree U.meaning (view pass.old) }
    ensures ready { IsReady (turn_id shared.now) pass.new }
    ensures free { IsFree U.meaning (view pass.new) }
{
    shared.perform(rt, pass, MakeDylib { name: NameId(7) })
}

/// Its tracker is made.
pub(super) fn makes_tracker<U: LinkedUnit, R: Wait, const JMAX: usize>(
    rt: &R,
    shared: &Shared<U, Note, JMAX>,
    pass: &mut Pass<U, Note, JMAX>,
) -> Result<Reply, Stop>
    requires ready { IsReady (turn_id shared.now) pass.old }
    requires free { IsFree U.meaning (view pass.old) }
    ensures ready { IsReady (turn_id shared.now) pass.new }
    ensures free { IsFree U.meaning (view pass.new) }
{
    shared.perform(rt, pass, MakeTracker { dylib: DylibId(0) })
}

/// A generator of the unit, which is no alias, is attached to it.
fn attaches<U: LinkedUnit, R: Wait, const JMAX: usize>(
    rt: &R,
    shared: &Shared<U, Note, JMAX>,
    pass: &mut Pass<U, Note, JMAX>,
    unit: U,
) -> Result<Reply, Stop>
    requires ready { IsReady (turn_id shared.now) pass.old }
    requires free { IsFree U.meaning (view pass.old) }
    requires source { (U.meaning unit).source ≡ None }
    ensures ready { IsReady (turn_id shared.now) pass.new }
    ensures free { IsFree U.meaning (view pass.new) }
{
    let attach = Attach {
        dylib: DylibId(0),
        tracker: TrackId(0),
        unit,
    };
    shared.perform(rt, pass, attach).answer
}

/// The unit, which is no alias, is defined in it.
fn defines<U: LinkedUnit, R: Wait, const JMAX: usize>(
    rt: &R,
    shared: &Shared<U, Note, JMAX>,
    pass: &mut Pass<U, Note, JMAX>,
    unit: U,
) -> Result<Reply, Stop>
    requires ready { IsReady (turn_id shared.now) pass.old }
    requires free { IsFree U.meaning (view pass.old) }
    requires source { (U.meaning unit).source ≡ None }
    ensures ready { IsReady (turn_id shared.now) pass.new }
    ensures free { IsFree U.meaning (view pass.new) }
{
    let define = Define {
        dylib: DylibId(0),
        tracker: TrackId(0),
        unit,
    };
    shared.perform(rt, pass, define).answer
}

/// Another handle to the unit of this number, if there is one and it is no alias.
fn share_of<U: UnitKind>(alloc: Global, units: &[U], number: usize) -> Option<U>
    ensures { IfSome result (λ unit. (U.meaning unit).source ≡ None) }
{
    let unit = units.get(number)?;
    if unit.source().is_some() {
        return None;
    }
    unit.share(alloc).ok()
}

/// A generator of the unit of this number is attached to it.
pub(super) fn attaches_one<U: LinkedUnit, R: Wait, const JMAX: usize>(
    rt: &R,
    alloc: Global,
    shared: &Shared<U, Note, JMAX>,
    pass: &mut Pass<U, Note, JMAX>,
    units: &[U],
    number: usize,
) -> bool
    requires ready { IsReady (turn_id shared.now) pass.old }
    requires free { IsFree U.meaning (view pass.old) }
    ensures ready { IsReady (turn_id shared.now) pass.new }
    ensures free { IsFree U.meaning (view pass.new) }
{
    match share_of(alloc, units, number) {
        Some(unit) => attaches(rt, shared, pass, unit).is_ok(),
        None => false,
    }
}

/// The unit of this number is defined in it.
pub(super) fn defines_one<U: LinkedUnit, R: Wait, const JMAX: usize>(
    rt: &R,
    alloc: Global,
    shared: &Shared<U, Note, JMAX>,
    pass: &mut Pass<U, Note, JMAX>,
    units: &[U],
    number: usize,
) -> bool
    requires ready { IsReady (turn_id shared.now) pass.old }
    requires free { IsFree U.meaning (view pass.old) }
    ensures ready { IsReady (turn_id shared.now) pass.new }
    ensures free { IsFree U.meaning (view pass.new) }
{
    match share_of(alloc, units, number) {
        Some(unit) => defines(rt, shared, pass, unit).is_ok(),
        None => false,
    }
}
