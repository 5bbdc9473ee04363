//! The calls of a pass.

ghost use Rattle.std.specs.Prelude.{◌≡◌, None};
ghost use Rattle.shared_session.specs.declared.posts.TheConstants.{POSTS};
ghost use Rattle.turn_lock.specs.Handles.{view, turn_id, post_count, IsReady};
ghost use Rattle.link_worker.specs.Works.{IsFree};
ghost use Rattle.ready_words_tests.specs.Lookups.{FindsAt};

use execution_session::{Session, Told};
use link_worker::{LinkedUnit, Looked, lookup};
use notifiers::FiredList;
use orc_ids::{DylibId, Level, NameId, OrderItem, Scope, Stop, TrackId, Wanted};
use orc_io::{Note, OpenGate};
use ready_words::post_found;
use session_model::{LookEnd, Reply};
use session_units::ObjectUnit;
use shared_session::{Define, MakeDylib, MakeTracker, Pass, Remove, Shared};
use std::alloc::Global;
use std::sync::Wait;

/// How many entries the journal has places for.
pub(super) const PLACES: usize = 64;

/// The one dylib: dylibs are numbered as they are made.
const LIBRARY: DylibId = DylibId(0);

/// The tracker of its units.
const UNITS: TrackId = TrackId(0);

/// Makes the dylib.
pub(super) fn make_dylib<U: LinkedUnit, R: Wait, const JMAX: usize>(
    rt: &R,
    shared: &Shared<U, Note, JMAX>,
    pass: &mut Pass<U, Note, JMAX>,
    name: NameId,
) -> Result<Reply, Stop>
    requires ready { IsReady (turn_id shared.now) pass.old }
    requires free { IsFree U.meaning (view pass.old) }
    ensures ready { IsReady (turn_id shared.now) pass.new }
    ensures free { IsFree U.meaning (view pass.new) }
{
    shared.perform(rt, pass, MakeDylib { name })
}

/// Makes a tracker of it.
pub(super) fn make_tracker<U: LinkedUnit, R: Wait, const JMAX: usize>(
    rt: &R,
    shared: &Shared<U, Note, JMAX>,
    pass: &mut Pass<U, Note, JMAX>,
) -> Result<Reply, Stop>
    requires ready { IsReady (turn_id shared.now) pass.old }
    requires free { IsFree U.meaning (view pass.old) }
    ensures ready { IsReady (turn_id shared.now) pass.new }
    ensures free { IsFree U.meaning (view pass.new) }
{
    shared.perform(rt, pass, MakeTracker { dylib: LIBRARY })
}

/// Defines a unit, which is no alias, in the dylib. The reply says which of its
/// symbols were taken.
pub(super) fn define<U: LinkedUnit, R: Wait, const JMAX: usize>(
    rt: &R,
    shared: &Shared<U, Note, JMAX>,
    pass: &mut Pass<U, Note, JMAX>,
    unit: U,
) -> Result<Reply, Stop>
    requires ready { IsReady (turn_id shared.now) pass.old }
    requires free { IsFree U.meaning (view pass.old) }
    requires source { (U.meaning unit).source ≡ None }
    ensures ready { IsReady (turn_id shared.now) pass.new }
    ensures free { IsFree U.meaning (view pass.new) }
{
    let define = Define {
        dylib: LIBRARY,
        tracker: UNITS,
        unit,
    };
    shared.perform(rt, pass, define).answer
}

/// Removes all that the tracker has.
pub(super) fn remove<U: LinkedUnit, R: Wait, const JMAX: usize>(
    rt: &R,
    shared: &Shared<U, Note, JMAX>,
    pass: &mut Pass<U, Note, JMAX>,
) -> Result<Reply, Stop>
    requires ready { IsReady (turn_id shared.now) pass.old }
    ensures ready { IsReady (turn_id shared.now) pass.new }
{
    let mut fired = FiredList::new();
    let Told { answer, fires } = shared.perform(rt, pass, Remove { tracker: UNITS });
    fires.fire_all(&mut fired);
    answer
}

/// Looks a name up among all names of the dylib, and does the jobs that this needs.
pub(super) fn look_up<U: LinkedUnit, R: Wait, const JMAX: usize>(
    rt: &R,
    alloc: Global,
    shared: &Shared<U, Note, JMAX>,
    pass: &mut Pass<U, Note, JMAX>,
    name: NameId,
    level: Level,
) -> LookEnd
    requires ready { IsReady (turn_id shared.now) pass.old }
    requires free { IsFree U.meaning (view pass.old) }
    ensures ready { IsReady (turn_id shared.now) pass.new }
    ensures free { IsFree U.meaning (view pass.new) }
    ensures looked { FindsAt U.meaning level (view pass.old) (view pass.new) result }
{
    let item = OrderItem {
        dylib: LIBRARY,
        scope: Scope::All,
    };
    let wanted = Wanted { name, weak: false };
    let mut fired = FiredList::new();
    let Looked { end, back } = lookup(
        rt,
        alloc,
        shared,
        pass,
        &[item],
        &[wanted],
        level,
        None,
        &OpenGate,
        &mut fired,
    );
    if let Some(armed) = back {
        let _note = armed.back();
    }
    end
}

/// Looks it up at Ready, and posts what it is found to be.
pub(super) fn look_up_and_post<U: LinkedUnit, R: Wait, const JMAX: usize>(
    rt: &R,
    alloc: Global,
    shared: &Shared<U, Note, JMAX>,
    pass: &mut Pass<U, Note, JMAX>,
    name: NameId,
) -> LookEnd
    requires ready { IsReady (turn_id shared.now) pass.old }
    requires free { IsFree U.meaning (view pass.old) }
    requires posts { post_count shared.now ≡ POSTS }
    ensures ready { IsReady (turn_id shared.now) pass.new }
{
    let end = look_up(rt, alloc, shared, pass, name, Level::Ready);
    // What a pass has seen once it has looked is a history of the session.
    let _entries = shared.front(pass);
    if let LookEnd::Found(matches) = &end {
        post_found(shared, pass, matches.as_slice());
    }
    end
}

/// Ends a session; notifiers of queries that are still open come back.
pub(super) fn end_session(session: Session<ObjectUnit, Note, PLACES>) {
    let mut session = session;
    while let Some(armed) = session.give_back() {
        let _note = armed.back();
    }
    session.end();
}
