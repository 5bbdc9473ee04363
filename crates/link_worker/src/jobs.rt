//! Jobs are done for others.
ghost use Rattle.turn_lock.specs.Handles.{view, turn_id, IsReady};
ghost use Rattle.std.specs.Prelude.{[]};
ghost use Rattle.link_worker.specs.Does.{Does};
ghost use Rattle.link_worker.specs.Works.{IsFree, Jobs};
ghost use Rattle.link_worker.specs.Assists.{HasDoneJobs};

use crate::{LinkedUnit, assist};
use notifiers::FiredList;
use orc_io::{Gate, Notify};
use shared_session::{Pass, Shared};
use std::alloc::Global;
use std::sync::Wait;
use std::sync::atomic::AtomicU64;

/// Does jobs until so many clients have ended, and hands out who was told at them.
pub fn do_jobs<U: LinkedUnit, N: Notify, G: Gate, R: Wait, const JMAX: usize>(
    rt: &R,
    alloc: Global,
    shared: &Shared<U, N, JMAX>,
    pass: &mut Pass<U, N, JMAX>,
    gate: &G,
    ended: &AtomicU64,
    clients: u64,
) -> FiredList<N>
    requires ready { IsReady (turn_id shared.now) pass.old }
    requires free { IsFree U.meaning (view pass.old) }
    ensures ready { IsReady (turn_id shared.now) pass.new }
    ensures free { IsFree U.meaning (view pass.new) }
    ensures jobs { HasDoneJobs U.meaning (view pass.old) (view pass.new) }
    ensures told { Does U.meaning N.heard (view pass.old) (view pass.new) [] result Jobs }
{
    let mut fired = FiredList::new();
    let _worked = assist(rt, alloc, shared, pass, gate, ended, clients, &mut fired);
    fired
}
