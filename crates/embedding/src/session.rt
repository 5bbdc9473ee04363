//! The calls that set a session up, and the lookup.

ghost use Rattle.std.specs.Prelude.{◌≡◌, None};
ghost use Rattle.turn_lock.specs.Handles.{view, turn_id, IsReady};
ghost use Rattle.link_worker.specs.Works.{IsFree};

use execution_session::Session;
use link_worker::{LinkedUnit, Looked, lookup};
use notifiers::FiredList;
use orc_ids::{DylibId, Level, NameId, OrderItem, Scope, Stop, TrackId, Wanted};
use orc_io::{Note, OpenGate};
use session_model::{LookEnd, Reply};
use session_units::ObjectUnit;
use shared_session::{Define, MakeDylib, MakeTracker, Pass, Shared};
use std::alloc::Global;
use std::sync::Wait;

/// How many entries the journal has places for.
pub const PLACES: usize = 64;

/// The one dylib: dylibs are numbered as they are made.
const LIBRARY: DylibId = DylibId(0);

/// The tracker of its units.
const UNITS: TrackId = TrackId(0);

/// Makes the dylib (ORC: `createJITDylib`).
pub fn make_dylib<U: LinkedUnit, R: Wait, const JMAX: usize>(
    rt: &R,
    shared: &Shared<U, Note, JMAX>,
    pass: &mut Pass<U, Note, JMAX>,
    name: NameId,
) -> Result<Reply, Stop>
    requires ready { IsReady (turn_id shared.now) pass.old }
    requires free { IsFree U.meaning (view pass.old) }
    ensures ready { IsReady (turn_id shared.now) pass.new }
    ensures free { IsFree U.meaning (view pass.new) }
{
    shared.perform(rt, pass, MakeDylib { name })
}

/// Makes a tracker of it (ORC: `createResourceTracker`).
pub fn make_tracker<U: LinkedUnit, R: Wait, const JMAX: usize>(
    rt: &R,
    shared: &Shared<U, Note, JMAX>,
    pass: &mut Pass<U, Note, JMAX>,
) -> Result<Reply, Stop>
    requires ready { IsReady (turn_id shared.now) pass.old }
    requires free { IsFree U.meaning (view pass.old) }
    ensures ready { IsReady (turn_id shared.now) pass.new }
    ensures free { IsFree U.meaning (view pass.new) }
{
    shared.perform(rt, pass, MakeTracker { dylib: LIBRARY })
}

/// Defines a unit, which is no alias, in the dylib (ORC: `JITDylib::define`). The reply says which of its
/// symbols were taken.
pub fn define<U: LinkedUnit, R: Wait, const JMAX: usize>(
    rt: &R,
    shared: &Shared<U, Note, JMAX>,
    pass: &mut Pass<U, Note, JMAX>,
    unit: U,
) -> Result<Reply, Stop>
    requires ready { IsReady (turn_id shared.now) pass.old }
    requires free { IsFree U.meaning (view pass.old) }
    requires source { (U.meaning unit).source ≡ None }
    ensures ready { IsReady (turn_id shared.now) pass.new }
    ensures free { IsFree U.meaning (view pass.new) }
{
    let define = Define {
        dylib: LIBRARY,
        tracker: UNITS,
        unit,
    };
    shared.perform(rt, pass, define).answer
}

/// Looks a name up among all names of the dylib, and does the jobs that this needs, until it is ready or
/// lost (ORC: `ExecutionSession::lookup`). Nobody is told: the caller waits.
pub fn look_up<U: LinkedUnit, R: Wait, const JMAX: usize>(
    rt: &R,
    alloc: Global,
    shared: &Shared<U, Note, JMAX>,
    pass: &mut Pass<U, Note, JMAX>,
    name: NameId,
) -> LookEnd
    requires ready { IsReady (turn_id shared.now) pass.old }
    requires free { IsFree U.meaning (view pass.old) }
    ensures ready { IsReady (turn_id shared.now) pass.new }
    ensures free { IsFree U.meaning (view pass.new) }
{
    let item = OrderItem {
        dylib: LIBRARY,
        scope: Scope::All,
    };
    let wanted = Wanted { name, weak: false };
    let mut fired = FiredList::new();
    let Looked { end, back } = lookup(
        rt,
        alloc,
        shared,
        pass,
        &[item],
        &[wanted],
        Level::Ready,
        None,
        &OpenGate,
        &mut fired,
    );
    if let Some(armed) = back {
        let _note = armed.back();
    }
    end
}

/// Ends a session; notifiers of queries that are still open come back.
pub fn end_session(session: Session<ObjectUnit, Note, PLACES>) {
    let mut session = session;
    while let Some(armed) = session.give_back() {
        let _note = armed.back();
    }
    session.end();
}
