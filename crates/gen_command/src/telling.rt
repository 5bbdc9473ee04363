//! What a session came to, by its journal and by how its lines ended.
ghost use Rattle.std.specs.Prelude.{◌≡◌, map, IfErr, IfOk};
ghost use Rattle.session_model.specs.State.{plain_history};
ghost use Rattle.generated_session.specs.Counts.{counts_of, text_of};
ghost use Rattle.gen_command.specs.Ends.{HasStopped, IsTold, first_ends};

use crate::stops::stop_in;
use answers::wanted_memory;
use generated_session::Counts;
use orc_ids::{Bytes, Stop};
use script_model::LineEnd;
use session_model::{Entry, UnitKind};
use std::alloc::{AllocError, Global};

/// How the lines of the first client ended.
pub(crate) fn first_client(clients: &[Vec<LineEnd>]) -> &[LineEnd]
    ensures { result.now ≡ first_ends (map (λ c. c.items) clients.now) }
{
    match clients {
        [first, ..] => first.as_slice(),
        [] => &[],
    }
}

/// The text of what the lines of `n` objects came to.
fn counted(alloc: Global, n: u32, ends: &[LineEnd]) -> Result<Bytes, Stop>
    ensures text { IfOk result (λ text. text ≡ text_of (counts_of n ends.now)) }
    ensures wanting { IfErr result (λ stop. stop ≡ Stop.NoMemory) }
{
    match Counts::of(n, ends).text(alloc) {
        Ok(text) => Ok(text),
        Err(AllocError) => Err(Stop::NoMemory),
    }
}

/// The text of what a session of `n` objects with this journal came to, whose set-up was stopped so, or not, and
/// whose lines ended so.
pub(crate) fn told<U: UnitKind>(
    alloc: Global,
    n: u32,
    journal: &[Entry<U>],
    set_up: Option<Stop>,
    ends: &[LineEnd],
) -> Result<Bytes, Stop>
    ensures told { IfOk result (IsTold n (plain_history U.meaning journal.now) set_up ends.now) }
    ensures stopped { IfErr result (HasStopped set_up ends.now) }
{
    if wanted_memory(journal) {
        return Err(Stop::NoMemory);
    }
    match stop_in(set_up, ends) {
        Some(stop) => Err(stop),
        None => counted(alloc, n, ends),
    }
}
