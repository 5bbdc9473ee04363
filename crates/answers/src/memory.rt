//! Want of memory in a session.
ghost use Rattle.std.specs.Prelude.{◌≡◌};
ghost use Rattle.session_model.specs.State.{plain_event, plain_history};
ghost use Rattle.answers.specs.Memory.{gives_up, is_for_memory, wanted_memory};

use session_model::{Entry, Event, UnitKind, Why};

fn is_for_memory(why: &Why) -> bool
    ensures { result ≡ is_for_memory why.now }
{
    matches!(why, Why::NoMemory)
}

/// A unit is given up for want of memory.
fn gives_up<U: UnitKind>(event: &Event<U>) -> bool
    ensures { result ≡ gives_up (plain_event U.meaning event.now) }
{
    match event {
        Event::Fail(_, why) => is_for_memory(why),
        _ => false,
    }
}

/// Whether a unit was given up for want of memory.
pub fn wanted_memory<U: UnitKind>(journal: &[Entry<U>]) -> bool
    ensures { result ≡ wanted_memory (plain_history U.meaning journal.now) }
{
    for entry in journal {
        if gives_up(&entry.event) {
            return true;
        }
    }
    false
}
