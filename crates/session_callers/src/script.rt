//! What a caller of `script_session` has of its contract: the function here is one call, and its clauses
//! are what the call promises. Its wrong bodies turn what was handed in or what came back, and the gate
//! sees each refused; so the contract of a crate whose own wrong bodies take too long for the gate is
//! tried there all the same.

ghost use Rattle.std.specs.Prelude.{◌≤◌, ◌<◌, ◌+◌, ◌^◌, length, map, IfOk};
ghost use Rattle.execution_session.specs.declared.session.TheConstants.{JOURNAL_LIMIT};
ghost use Rattle.session_model.specs.State.{plain_history};
ghost use Rattle.script_model.specs.Plans.{CanRun, script_of};
ghost use Rattle.script_model.specs.Scripts.{IsScriptRun};
ghost use Rattle.script_session.specs.Leaving.{AreNotified};

use link_worker::LinkedUnit;
use orc_ids::Stop;
use orc_io::{Gate, Notify};
use orc_names::NameHasher;
use script_model::{Plan, ScriptEnd};
use script_session::{Notified, ScriptSession, run_script};
use std::alloc::{AllocError, Global};
use std::sync::Wait;
use std::thread::Threads;

/// A script's session, how its lines ended and who was told, as they came back.
pub fn ran<
    U: LinkedUnit + Send + Sync,
    N: Notify + Send,
    G: Gate + Sync,
    R: Threads + Wait + Sync,
    const JMAX: usize,
>(
    rt: &R,
    alloc: Global,
    hasher: NameHasher,
    plan: Plan<U, N>,
    gate: &G,
    workers: u32,
) -> Result<ScriptSession<U, N, JMAX>, AllocError>
    requires limit { JMAX ≤ JOURNAL_LIMIT }
    requires few { length plan.clients.items + workers + 1 < 2 ^ 32 }
    requires can { CanRun U.meaning N.heard N.number plan }
    ensures run { IfOk result (λ s. IsScriptRun JMAX workers (script_of U.meaning plan) s.end.set_up
        (map (λ c. c.items) s.end.clients.items) (plain_history U.meaning s.session.journal)) }
    ensures notified { IfOk result (λ s. AreNotified N.heard N.number (length plan.clients.items + workers)
        (plain_history U.meaning s.session.journal) s.notified) }
{
    let ScriptSession {
        session,
        end,
        notified,
    } = run_script(rt, alloc, hasher, plan, gate, workers)?;
    let set_up: Option<Stop> = end.set_up;
    let clients = end.clients;
    let told = notified.told;
    let unlodged = notified.unlodged;
    Ok(ScriptSession {
        session,
        end: ScriptEnd { set_up, clients },
        notified: Notified { told, unlodged },
    })
}
