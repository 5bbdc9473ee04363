//! The run: a seat for each thread, and one that takes them all in at the end.
ghost use Rattle.std.specs.Prelude.{◌≡◌, ◌<◌, [], All, IfOk};
ghost use Rattle.turn_lock.specs.Handles.{view, turn_id, IsReady};

use crate::roll::{Mark, Roll};
use crate::turns::{Member, take_turns};
use std::alloc::{AllocError, Global};
use std::sync::Wait;
use std::thread;
use std::thread::Threads;
use turn_lock::{Seat, Turn};

/// A member for each number of the first seat, which is the last of them.
fn seated(
    alloc: Global,
    turn: &Turn<Roll>,
    first: Seat<Roll, Mark>,
) -> Result<Vec<Member>, AllocError>
    requires ready { IsReady (turn_id turn.now) first }
    requires fresh { (view first).mine ≡ [] }
    ensures { IfOk result (λ members. All (λ m. IsReady (turn_id turn.now) m.seat × ((view m.seat).mine ≡ [])) members.items) }
{
    let mut first = first;
    let mut members = Vec::new(alloc);
    for _ in 0..first.spares() {
        if first.spares() > 0 {
            let seat = turn.split(&mut first);
            members.push(Member {
                seat,
                failed: false,
            })?;
        }
    }
    members.push(Member {
        seat: first,
        failed: false,
    })?;
    Ok(members)
}

/// The roll after so many seats took so many turns each, on threads of their own.
pub fn run<R: Threads + Wait + Sync>(
    rt: &R,
    alloc: Global,
    seats: u32,
    turns: u32,
) -> Result<Roll, AllocError>
    requires { 0 < seats }
{
    let Ok((turn, first)) = Turn::open(alloc, Roll::new(alloc), seats) else {
        return Err(AllocError);
    };
    let mut members = seated(alloc, &turn, first)?;
    let table = &turn;
    thread::for_each_mut(
        rt,
        members.as_mut_slice(),
        seats as usize,
        &|_: usize, member: &mut Member|
            requires { IsReady (turn_id table.now) member.old.seat × ((view member.old.seat).mine ≡ []) }
            ensures { IsReady (turn_id table.entry.now) member.new.seat }
        { take_turns(rt, table, member, turns) },
    );
    let failed = members.iter().any(|member| member.failed);
    let last = joined(&turn, members)?;
    let roll = turn.close(rt, last);
    if failed {
        return Err(AllocError);
    }
    Ok(roll)
}

/// The last member's seat, after all others were joined to it.
fn joined(turn: &Turn<Roll>, mut members: Vec<Member>) -> Result<Seat<Roll, Mark>, AllocError>
    requires { All (λ m. IsReady (turn_id turn.now) m.seat) members.items }
    ensures { IfOk result (λ seat. IsReady (turn_id turn.now) seat) }
{
    let Some(Member { seat: mut last, .. }) = members.pop() else {
        return Err(AllocError);
    };
    while let Some(Member { seat, .. }) = members.pop() {
        turn.join(&mut last, seat);
    }
    Ok(last)
}
