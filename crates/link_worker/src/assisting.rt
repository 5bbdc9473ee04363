//! Jobs one after the other, for others.
ghost use Rattle.turn_lock.specs.Handles.{view, turn_id, IsReady};
ghost use Rattle.link_worker.specs.Works.{HasAssisted, IsFree};

use crate::unit::LinkedUnit;
use crate::work::{Worked, work_one};
use notifiers::FiredList;
use orc_io::{Gate, Notify};
use shared_session::{Pass, Shared};
use std::alloc::Global;
use std::sync::Wait;
use std::sync::atomic::{AtomicU64, Ordering};
use std::thread;

/// Does jobs until the word `ended` is at least `clients`, and answers Idle then.
pub fn assist<U: LinkedUnit, N: Notify, G: Gate, R: Wait, const JMAX: usize>(
    rt: &R,
    alloc: Global,
    shared: &Shared<U, N, JMAX>,
    pass: &mut Pass<U, N, JMAX>,
    gate: &G,
    ended: &AtomicU64,
    clients: u64,
    fired: &mut FiredList<N>,
) -> Worked
    requires ready { IsReady (turn_id shared.now) pass.old }
    requires free { IsFree U.meaning (view pass.old) }
    ensures ready { IsReady (turn_id shared.now) pass.new }
    ensures free { IsFree U.meaning (view pass.new) }
    ensures assisted { HasAssisted U.meaning N.heard JMAX (view pass.old) (view pass.new) fired.old fired.new result }
{
    for _ in rt.forever() {
        if ended.load(Ordering::SeqCst) >= clients {
            return Worked::Idle;
        }
        match work_one(rt, alloc, shared, pass, gate, fired) {
            Worked::Did => {}
            Worked::Idle => thread::yield_now(),
            Worked::JournalFull(len) => return Worked::JournalFull(len),
            Worked::NoMemory => return Worked::NoMemory,
        }
    }
    unreachable!()
}
