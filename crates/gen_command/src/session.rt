//! The session itself.
ghost use Rattle.std.specs.Prelude.{◌≡◌, ◌<◌, ◌≤◌, ◌+◌, ◌*◌, ◌^◌, map, IfErr, IfOk};
ghost use Rattle.execution_session.specs.declared.session.TheConstants.{JOURNAL_LIMIT};
ghost use Rattle.session_model.specs.State.{plain_history};
ghost use Rattle.session_units.specs.Units.{meaning_of};
ghost use Rattle.gen_command.specs.Found.{IsSummary};
ghost use Rattle.gen_command.specs.Ends.{IsRun};

use crate::telling::{first_client, told};
use execution_session::Session;
use generated_session::plan_of;
use orc_ids::{Bytes, Stop};
use orc_io::{Note, OpenGate};
use orc_names::NameHasher;
use script_session::{ScriptSession, run_script};
use session_units::ObjectUnit;
use std::alloc::{AllocError, Global};
use std::sync::Wait;
use std::thread::Threads;

/// A session whose notifiers nobody uses.
type Ran<const JMAX: usize> = ScriptSession<ObjectUnit, Note, JMAX>;

/// Gives up a session. No line of it has a notifier.
fn end_session<const JMAX: usize>(session: Session<ObjectUnit, Note, JMAX>) {
    let mut session = session;
    while let Some(armed) = session.give_back() {
        let _object = armed.back();
    }
    session.end();
}

/// The session of `n` objects is run, by one client.
fn run_generated<R: Threads + Wait + Sync, const JMAX: usize>(
    rt: &R,
    alloc: Global,
    hasher: NameHasher,
    n: u32,
) -> Result<Ran<JMAX>, AllocError>
    requires limit { JMAX ≤ JOURNAL_LIMIT }
    requires few { n < 2 ^ 31 }
    ensures { IfOk result (λ ran. IsRun JMAX n ran.end.set_up (map (λ c. c.items) ran.end.clients.items)
        (plain_history meaning_of ran.session.journal)) }
{
    let plan = plan_of::<Note>(alloc, n)?;
    run_script::<ObjectUnit, Note, OpenGate, R, JMAX>(rt, alloc, hasher, plan, &OpenGate, 0)
}

/// What a session that was run came to.
fn conclude<const JMAX: usize>(alloc: Global, n: u32, ran: Ran<JMAX>) -> Result<Bytes, Stop>
    requires { IsRun JMAX n ran.end.set_up (map (λ c. c.items) ran.end.clients.items) (plain_history meaning_of ran.session.journal) }
    ensures whole { IfOk result (IsSummary JMAX n) }
    ensures never_full { 21 * n + 9 < JMAX → IfErr result (λ stop. stop ≡ Stop.NoMemory) }
{
    let ScriptSession {
        session,
        end,
        notified: _notified,
    } = ran;
    let ends = first_client(end.clients.as_slice());
    let text = told(alloc, n, session.journal(), end.set_up, ends);
    end_session(session);
    text
}

/// The text of what the session of `n` objects came to, whose journal has `JMAX` places; or the stop that ended it.
/// A client makes the calls on a thread of its own, where there are threads; nobody works beside it.
pub fn summary<R: Threads + Wait + Sync, const JMAX: usize>(
    rt: &R,
    alloc: Global,
    hasher: NameHasher,
    n: u32,
) -> Result<Bytes, Stop>
    requires limit { JMAX ≤ JOURNAL_LIMIT }
    requires few { n < 2 ^ 31 }
    ensures whole { IfOk result (IsSummary JMAX n) }
    // A journal with enough places for the objects is never full.
    ensures never_full { 21 * n + 9 < JMAX → IfErr result (λ stop. stop ≡ Stop.NoMemory) }
{
    match run_generated::<R, JMAX>(rt, alloc, hasher, n) {
        Ok(ran) => conclude(alloc, n, ran),
        Err(AllocError) => Err(Stop::NoMemory),
    }
}
