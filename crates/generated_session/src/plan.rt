//! The whole plan.
ghost use Rattle.std.specs.Prelude.{◌<◌, ◌^◌, IfOk};
ghost use Rattle.script_model.specs.Plans.{CanRun, script_of};
ghost use Rattle.session_units.specs.Units.{meaning_of};
ghost use Rattle.generated_session.specs.Plans.{IsGenerated};

use crate::client::client_calls;
use crate::set_up::set_up_calls;
use orc_io::Notify;
use script_model::Plan;
use session_units::ObjectUnit;
use std::alloc::{AllocError, Global};

/// The plan of the session of `n` objects. The work is linear in `n`.
pub fn plan_of<N: Notify>(alloc: Global, n: u32) -> Result<Plan<ObjectUnit, N>, AllocError>
    requires { n < 2 ^ 31 }
    ensures asked { IfOk result (λ plan. IsGenerated n (script_of meaning_of plan)) }
    ensures can { IfOk result (λ plan. CanRun meaning_of N.heard N.number plan) }
{
    let set_up = set_up_calls(alloc, n)?;
    let client = client_calls(alloc, n)?;
    let mut clients = Vec::with_capacity(alloc, 1)?;
    clients.push(client)?;
    Ok(Plan { set_up, clients })
}
