//! What the seats behind the first do: the client looks the entry up, and workers do jobs beside it.
ghost use Rattle.std.specs.Prelude.{◌≡◌, ◌+◌, Some, IfOk};
ghost use Rattle.turn_lock.specs.Handles.{view, turn_id, IsReady};
ghost use Rattle.link_worker.specs.Works.{IsFree};
ghost use Rattle.linked_program.specs.Members.{AreMembers, Serves, is_client, last_end};

use crate::client::{ClientEnd, run_client};
use crew::Duty;
use link_worker::{LinkedUnit, do_jobs};
use orc_ids::NameId;
use orc_io::{Gate, Note};
use shared_session::{Home, Pass, Shared};
use std::alloc::{AllocError, Global};
use std::sync::Wait;
use std::sync::atomic::{AtomicU64, Ordering};

/// Which work a seat has.
#[derive(Clone, Copy)]
pub(crate) enum Role {
    /// It looks the entry up.
    Client,
    /// It does jobs until the client has ended.
    Worker,
}

/// The work of a seat, and what the client's lookup came to.
#[derive(Drop)]
pub(crate) struct Member<'a, G: Gate> {
    pub(crate) alloc: Global,
    pub(crate) gate: &'a G,
    /// The name that the client looks up.
    pub(crate) entry: NameId,
    /// The client raises it as it ends.
    pub(crate) ended: &'a AtomicU64,
    pub(crate) role: Role,
    pub(crate) end: Option<ClientEnd>,
}

impl<'a, U: LinkedUnit, G: Gate, const JMAX: usize> Duty<Home<U, Note, JMAX>> for Member<'a, G> {
    ghost may = { λ posts member v. IsFree U.meaning v };

    ghost does = { λ member after v w. Serves U.meaning JMAX member.entry (is_client member.role) v w after.end };

    fn serve<R: Wait>(
        &mut self,
        rt: &R,
        turn: &Shared<U, Note, JMAX>,
        seat: &mut Pass<U, Note, JMAX>,
    ) {
        match self.role {
            Role::Client => {
                let end = run_client(rt, self.alloc, turn, seat, self.gate, self.entry);
                self.end = Some(end);
                self.ended.fetch_add(1, Ordering::SeqCst);
            }
            Role::Worker => {
                let _fired = do_jobs(rt, self.alloc, turn, seat, self.gate, self.ended, 1);
            }
        }
    }
}

/// A member for each worker, and the client last, so that it has the first seat.
pub(crate) fn make_members<'a, G: Gate>(
    alloc: Global,
    gate: &'a G,
    entry: NameId,
    ended: &'a AtomicU64,
    workers: u32,
) -> Result<Vec<Member<'a, G>>, AllocError>
    ensures { IfOk result (λ members. AreMembers entry workers members.items) }
{
    let mut members = Vec::with_capacity(alloc, workers as usize + 1)?;
    for _worker in 0..workers {
        members.push_reserved(Member {
            alloc,
            gate,
            entry,
            ended,
            role: Role::Worker,
            end: None,
        });
    }
    members.push_reserved(Member {
        alloc,
        gate,
        entry,
        ended,
        role: Role::Client,
        end: None,
    });
    Ok(members)
}

/// What the last member's lookup came to.
fn last_end<G: Gate>(members: Vec<Member<'_, G>>) -> Option<ClientEnd>
    ensures { result ≡ last_end members.entry.items }
{
    let mut members = members;
    match members.pop() {
        Some(member) => member.end,
        None => None,
    }
}

/// What the client's lookup came to.
pub(crate) fn client_end<G: Gate>(members: Vec<Member<'_, G>>) -> ClientEnd
    requires { (end : ClientEnd) × (last_end members.items ≡ Some end) }
    ensures { last_end members.entry.items ≡ Some result }
{
    match last_end(members) {
        Some(end) => end,
        None => unreachable!(),
    }
}
