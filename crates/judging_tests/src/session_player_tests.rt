//! Lists of no call, one and two, and how they end.

ghost use Rattle.std.specs.Prelude.{[], ◌≤◌};
ghost use Rattle.execution_session.specs.declared.session.TheConstants.{JOURNAL_LIMIT};
ghost use Rattle.session_player.specs.Fits.{EachFits};

use execution_session::Session;
use notifiers::FiredList;
use orc_ids::{DylibId, NameId, SeatNo};
use orc_io::Note;
use session_check::KnownUnit;
use session_model::UnitKind;
use session_player::{Call, SeatCall, Stopped, play};
use std::alloc::{AllocError, Global};
use std::process::Abort;
use test_words::write_stop;

/// Ends a session that has no notifiers.
fn end<U: UnitKind, const JMAX: usize>(rt: &impl Abort, session: Session<U, Note, JMAX>) {
    let mut session = session;
    match session.give_back() {
        None => session.end(),
        Some(armed) => {
            let _object = armed.back();
            panic!(rt; "a notifier is left")
        }
    }
}

/// How a list ends: how many entries there are then, and the call that was stopped, if one was, and why.
fn ending(
    alloc: Global,
    played: Result<(), Stopped>,
    entries: usize,
) -> Result<String, AllocError> {
    match played {
        Ok(()) => format!(in alloc; "entries: {entries}"),
        Err(Stopped { at, why }) => {
            let mut text = format!(in alloc; "entries: {entries}, call {at}: ")?;
            write_stop(&mut text, why)?;
            Ok(text)
        }
    }
}

/// The calls, in a session of their own, end so.
fn plays<U: UnitKind, const JMAX: usize>(
    rt: &impl Abort,
    alloc: Global,
    calls: Vec<SeatCall<U>>,
    text: &str,
)
    requires limit { JMAX ≤ JOURNAL_LIMIT }
    requires fits { EachFits U.meaning JMAX [] calls.items }
{
    let mut session = Session::<U, Note, JMAX>::open(alloc).expect(rt, "memory");
    let played = play(&mut session, &mut FiredList::new(), calls);
    let entries = session.journal().len();
    end(rt, session);
    let ended = ending(alloc, played, entries).expect(rt, "memory");
    assert_eq!(rt; ended.as_str(), text);
}

/// A dylib is made.
const DYLIB: SeatCall<KnownUnit> = SeatCall {
    seat: SeatNo(0),
    call: Call::Dylib(NameId(0)),
};

/// A tracker of the first dylib is made.
const TRACKER: SeatCall<KnownUnit> = SeatCall {
    seat: SeatNo(1),
    call: Call::Tracker(DylibId(0)),
};

/// So many of two calls, a dylib and a tracker of it, end so.
fn plays_first<const JMAX: usize>(rt: &impl Abort, alloc: Global, count: u32, text: &str)
    requires { JMAX ≤ JOURNAL_LIMIT }
{
    match count {
        0 => plays::<KnownUnit, JMAX>(rt, alloc, Vec::new(alloc), text),
        1 => {
            let one = vec![in alloc; DYLIB].expect(rt, "memory");
            plays::<KnownUnit, JMAX>(rt, alloc, one, text);
        }
        _ => {
            let two = vec![in alloc; DYLIB, TRACKER].expect(rt, "memory");
            plays::<KnownUnit, JMAX>(rt, alloc, two, text);
        }
    }
}

#[test]
fn memory_is_enough_for_a_list_of_no_call(rt: HostRuntime) {
    plays_first::<64>(&rt, rt.alloc(), 0, "entries: 0");
}

#[test]
fn memory_is_enough_for_a_list_of_one_call(rt: HostRuntime) {
    plays_first::<64>(&rt, rt.alloc(), 1, "entries: 1");
}

#[test]
fn memory_is_enough_for_a_list_of_calls(rt: HostRuntime) {
    plays_first::<64>(&rt, rt.alloc(), 2, "entries: 2");
}

#[test]
fn a_full_journal_stops_the_list(rt: HostRuntime) {
    plays_first::<1>(&rt, rt.alloc(), 2, "entries: 1, call 1: JournalFull(1)");
}
