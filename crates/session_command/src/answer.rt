//! What a script's session answers.
ghost use Rattle.std.specs.Prelude.{◌≡◌, flat_map, map};
ghost use Rattle.answers.specs.Memory.{wanted_memory};
ghost use Rattle.session_model.specs.State.{plain_history};
ghost use Rattle.session_command.specs.Ends.{session_answer, stop_answer, stop_in, stops_answer, stops_of, worse};

use answers::{Answer, wanted_memory};
use orc_ids::Stop;
use script_model::{LineEnd, ScriptEnd};
use session_model::{Entry, UnitKind};

/// Of two answers the one that counts: want of memory, or else the earlier stop for want of a place.
fn worse(one: Answer, other: Answer) -> Answer
    ensures { result ≡ worse one other }
{
    match (one, other) {
        (Answer::NoMemory, _) => Answer::NoMemory,
        (Answer::JournalFull(_), Answer::NoMemory) => Answer::NoMemory,
        (Answer::JournalFull(a), Answer::JournalFull(b)) => {
            Answer::JournalFull(if b < a { b } else { a })
        }
        (Answer::JournalFull(len), _) => Answer::JournalFull(len),
        (_, other) => other,
    }
}

/// What a stop is answered.
fn stop_answer(stop: Stop) -> Answer
    ensures { result ≡ stop_answer stop }
{
    match stop {
        Stop::JournalFull(len) => Answer::JournalFull(len),
        Stop::NoMemory => Answer::NoMemory,
    }
}

/// The answer after a line, where it was this before.
fn after_line(before: Answer, end: &LineEnd) -> Answer
    ensures { result ≡ stops_answer before (stop_in end.now) }
{
    match end {
        LineEnd::Stopped(stop) => worse(before, stop_answer(*stop)),
        _ => before,
    }
}

/// The answer after the lines of a client.
fn after_lines(before: Answer, ends: &[LineEnd]) -> Answer
    ensures { result ≡ stops_answer before (flat_map stop_in ends.now) }
{
    let mut answer = before;
    for end in ends {
        answer = after_line(answer, end);
    }
    answer
}

/// The answer after the lines of all clients.
fn after_clients(before: Answer, clients: &[Vec<LineEnd>]) -> Answer
    ensures { result ≡ stops_answer before (flat_map (flat_map stop_in) (map (λ c. c.items) clients.now)) }
{
    let mut answer = before;
    for ends in clients {
        answer = after_lines(answer, ends.as_slice());
    }
    answer
}

/// What a session with this journal answers, whose lines ended so.
pub(crate) fn session_answer<U: UnitKind>(journal: &[Entry<U>], end: &ScriptEnd) -> Answer
    ensures { result ≡ session_answer (plain_history U.meaning journal.now) end.now.set_up (map (λ c. c.items) end.now.clients.items) }
{
    if wanted_memory(journal) {
        return Answer::NoMemory;
    }
    let before = match end.set_up {
        Some(stop) => worse(Answer::Done, stop_answer(stop)),
        None => Answer::Done,
    };
    after_clients(before, end.clients.as_slice())
}
