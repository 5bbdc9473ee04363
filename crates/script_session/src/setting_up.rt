//! Seat 0's calls, while no other seat is there.
ghost use Rattle.std.specs.Prelude.{◌≡◌, ◌++◌, List, [], ◌∷◌, map, Ok, Err, OnOk, IfErr, IfNone, IfSome};
ghost use Rattle.session_model.specs.Meaning.{Meaning};
ghost use Rattle.session_model.specs.declared.entry.Event.{Event};
ghost use Rattle.session_model.specs.declared.entry.Reply.{Reply};
ghost use Rattle.session_steps.specs.Performs.{state_of};
ghost use Rattle.turn_lock.specs.Handles.{view, turn_id, IsReady};
ghost use Rattle.script_model.specs.Plans.{CanSetUpAll, event_of};
ghost use Rattle.script_session.specs.SetUps.{HasSetUp, IsAllowed, IsAt, IsStoppedIn};

use link_worker::LinkedUnit;
use orc_ids::Stop;
use orc_io::Notify;
use script_model::SetUpCall;
use session_model::Reply;
use shared_session::{Attach, Define, MakeDylib, MakeTracker, Pass, SetOrder, Shared};
use std::sync::Wait;

/// Makes a call of the set-up.
fn perform<U: LinkedUnit, N: Notify, R: Wait, const JMAX: usize>(
    rt: &R,
    shared: &Shared<U, N, JMAX>,
    pass: &mut Pass<U, N, JMAX>,
    call: SetUpCall<U>,
) -> Result<Reply, Stop>
    requires ready { IsReady (turn_id shared.now) pass.old }
    requires at { (evs : List (Event Meaning)) × IsAt U.meaning JMAX evs (view pass.old) }
    requires allowed { IsAllowed U.meaning (state_of U.meaning (view pass.old).seen) call }
    ensures ready { IsReady (turn_id shared.now) pass.new }
    ensures seats { (view pass.new).seats ≡ (view pass.old).seats }
    ensures called { OnOk result ((evs : List (Event Meaning)) → IsAt U.meaning JMAX evs (view pass.old) →
        IsAt U.meaning JMAX (evs ++ event_of U.meaning call ∷ []) (view pass.new)) }
    ensures stopped { IfErr result (λ st. (evs : List (Event Meaning)) → IsAt U.meaning JMAX evs (view pass.old) →
        IsStoppedIn U.meaning JMAX evs (view pass.new) st) }
{
    match call {
        SetUpCall::Dylib(name) => shared.perform(rt, pass, MakeDylib { name }),
        SetUpCall::Order(dylib, order) => {
            let order = order.as_slice();
            shared.perform(rt, pass, SetOrder { dylib, order })
        }
        SetUpCall::Tracker(dylib) => shared.perform(rt, pass, MakeTracker { dylib }),
        SetUpCall::Define(dylib, tracker, unit) => {
            let define = Define {
                dylib,
                tracker,
                unit,
            };
            shared.perform(rt, pass, define).answer
        }
        SetUpCall::Attach(dylib, tracker, unit) => {
            let attach = Attach {
                dylib,
                tracker,
                unit,
            };
            shared.perform(rt, pass, attach).answer
        }
    }
}

/// The stop of a call that was stopped.
fn stop_in(answer: Result<Reply, Stop>) -> Option<Stop>
    ensures some { IfSome result (λ stop. answer ≡ Err stop) }
    ensures none { IfNone result ((reply : Reply) × (answer ≡ Ok reply)) }
{
    match answer {
        Ok(_) => None,
        Err(stop) => Some(stop),
    }
}

/// Makes the calls of the set-up, up to the first that is stopped.
pub(crate) fn set_up<U: LinkedUnit, N: Notify, R: Wait, const JMAX: usize>(
    rt: &R,
    shared: &Shared<U, N, JMAX>,
    pass: &mut Pass<U, N, JMAX>,
    calls: Vec<SetUpCall<U>>,
) -> Option<Stop>
    requires ready { IsReady (turn_id shared.now) pass.old }
    requires at { IsAt U.meaning JMAX [] (view pass.old) }
    requires can { CanSetUpAll U.meaning calls.items }
    ensures ready { IsReady (turn_id shared.now) pass.new }
    ensures seats { (view pass.new).seats ≡ (view pass.old).seats }
    ensures set_up { HasSetUp U.meaning JMAX (map (event_of U.meaning) calls.items) (view pass.new) result }
{
    for call in calls {
        let stopped = stop_in(perform(rt, shared, pass, call));
        if let Some(stop) = stopped {
            return Some(stop);
        }
    }
    None
}
