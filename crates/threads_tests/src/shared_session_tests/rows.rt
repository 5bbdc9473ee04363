//! What three passes of one session do in turn.

ghost use Rattle.std.specs.Prelude.{◌≤◌};
ghost use Rattle.execution_session.specs.declared.session.TheConstants.{JOURNAL_LIMIT};
ghost use Rattle.turn_lock.specs.Handles.{turn_id, IsReady};

use super::calls::is_handed_back;
use super::ends::{count_of, entries};
use super::steps::{Step, is_answered};
use notifiers::FiredList;
use orc_ids::{End, InstId, NameId, Outcome, QueryId};
use orc_io::Note;
use session_model::UnitKind;
use shared_session::{Pass, Shared, open};
use std::alloc::Global;
use std::process::Abort;
use std::sync::Wait;

/// A step of a pass, or what more than one of them do.
#[derive(Drop)]
pub(super) enum Row<'a> {
    /// The pass that sets the session up does it.
    SetUp(Step<'a>),
    /// The first one does it.
    First(Step<'a>),
    /// The second one does it.
    Second(Step<'a>),
    /// The first one sees all that the second has seen.
    Meet,
    /// While the first one has the turn, the second tries to define the unit, which offers name 1.
    Busy,
    /// The next one that was told has this note, and heard that an instance of this query was lost at this entry.
    Hear(u32, u32, u64),
    /// Nobody else was told.
    HearNoMore,
}

/// The next one that was told has this note, and has heard that the query's instance was lost.
fn has_heard(heard: &mut FiredList<Note>, note: u32, query: u32, entry: u64) -> bool {
    let Some((given, fired)) = heard.pop() else {
        return false;
    };
    let outcome = Outcome {
        query: QueryId(query),
        end: End::Failed(entry, InstId(0)),
    };
    let object = fired.object();
    given == note && object.number == note && object.outcome == Some(outcome)
}

/// While the first pass has the turn, a definition of the second is handed back.
fn is_busy<U: UnitKind, R: Wait, const JMAX: usize>(
    rt: &R,
    alloc: Global,
    shared: &Shared<U, Note, JMAX>,
    first: &mut Pass<U, Note, JMAX>,
    second: &mut Pass<U, Note, JMAX>,
    units: &[U],
) -> bool
    requires first { IsReady (turn_id shared.now) first.old }
    requires second { IsReady (turn_id shared.now) second.old }
    ensures first { IsReady (turn_id shared.now) first.new }
    ensures second { IsReady (turn_id shared.now) second.new }
{
    let held = shared.enter(rt, first);
    let busy = is_handed_back(alloc, shared, second, units, NameId(1));
    held.leave();
    busy
}

/// What the row says comes of it.
fn comes_so<U: UnitKind, R: Wait, const JMAX: usize>(
    rt: &R,
    alloc: Global,
    shared: &Shared<U, Note, JMAX>,
    set_up: &mut Pass<U, Note, JMAX>,
    first: &mut Pass<U, Note, JMAX>,
    second: &mut Pass<U, Note, JMAX>,
    units: &[U],
    heard: &mut FiredList<Note>,
    row: &Row<'_>,
) -> bool
    requires set_up { IsReady (turn_id shared.now) set_up.old }
    requires first { IsReady (turn_id shared.now) first.old }
    requires second { IsReady (turn_id shared.now) second.old }
    ensures set_up { IsReady (turn_id shared.now) set_up.new }
    ensures first { IsReady (turn_id shared.now) first.new }
    ensures second { IsReady (turn_id shared.now) second.new }
{
    match row {
        Row::SetUp(step) => is_answered(rt, alloc, shared, set_up, units, heard, step),
        Row::First(step) => is_answered(rt, alloc, shared, first, units, heard, step),
        Row::Second(step) => is_answered(rt, alloc, shared, second, units, heard, step),
        Row::Meet => {
            shared.meet(second, first);
            true
        }
        Row::Busy => is_busy(rt, alloc, shared, first, second, units),
        Row::Hear(note, query, entry) => has_heard(heard, *note, *query, *entry),
        Row::HearNoMore => heard.pop().is_none(),
    }
}

/// Plays the rows up to the first of which something else comes: the number of that one, if there is one.
fn play<U: UnitKind, R: Wait, const JMAX: usize>(
    rt: &R,
    alloc: Global,
    shared: &Shared<U, Note, JMAX>,
    set_up: &mut Pass<U, Note, JMAX>,
    first: &mut Pass<U, Note, JMAX>,
    second: &mut Pass<U, Note, JMAX>,
    units: &[U],
    rows: &[Row<'_>],
) -> Option<usize>
    requires set_up { IsReady (turn_id shared.now) set_up.old }
    requires first { IsReady (turn_id shared.now) first.old }
    requires second { IsReady (turn_id shared.now) second.old }
    ensures set_up { IsReady (turn_id shared.now) set_up.new }
    ensures first { IsReady (turn_id shared.now) first.new }
    ensures second { IsReady (turn_id shared.now) second.new }
{
    let mut heard = FiredList::new();
    for (number, row) in rows.iter().enumerate() {
        if !comes_so(
            rt, alloc, shared, set_up, first, second, units, &mut heard, row,
        ) {
            return Some(number);
        }
    }
    None
}

/// Plays the rows in a session of their own: how many entries it has at its end, or the number of the first row
/// of which something else came than it says.
pub(super) fn played_by_three<U: UnitKind, const JMAX: usize>(
    rt: &(impl Abort + Wait),
    alloc: Global,
    units: &[U],
    rows: &[Row<'_>],
) -> Result<usize, usize>
    requires { JMAX ≤ JOURNAL_LIMIT }
{
    let Ok((shared, mut set_up)) = open::<U, Note, JMAX>(alloc, 3) else {
        panic!(rt; "memory")
    };
    let mut first = shared.split(&mut set_up);
    let mut second = shared.split(&mut set_up);
    let stopped = play(
        rt,
        alloc,
        &shared,
        &mut set_up,
        &mut first,
        &mut second,
        units,
        rows,
    );
    shared.join(&mut set_up, first);
    shared.join(&mut set_up, second);
    count_of(stopped, entries(rt, shared, set_up))
}
