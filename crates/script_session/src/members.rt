//! What the seats behind the first do: clients their lines, and workers jobs beside them.
ghost use Rattle.link_worker.specs.Works.{IsFree};
ghost use Rattle.shared_session.specs.declared.posts.TheConstants.{POSTS};
ghost use Rattle.script_session.specs.Members.{AllSkipped, AreAdded, AreMembers, CanBegin, Serves, WasSkipped};
ghost use Rattle.std.specs.Prelude.{◌≡◌, ◌≤◌, ◌+◌, [], All, length, map, vec_capacity, IfOk, OnOk};
ghost use Rattle.script_model.specs.Lines.{AreSkipped};
ghost use Rattle.script_session.specs.Clients.{AreUnheard, IsEmpty};
ghost use Rattle.script_model.specs.Plans.{CanCall, line_of};

use crate::client::{ClientEnd, do_lines, skip};
use crew::Duty;
use link_worker::{LinkedUnit, do_jobs};
use notifiers::FiredList;
use orc_io::{Gate, Notify};
use orc_names::NameHasher;
use script_model::ClientCall;
use session_model::UnitKind;
use shared_session::{Home, Pass, Shared};
use std::alloc::{AllocError, Global};
use std::mem::replace;
use std::sync::Wait;
use std::sync::atomic::{AtomicU64, Ordering};

/// What all seats are handed.
#[derive(Drop)]
pub(crate) struct Common<'a, G: Gate> {
    pub(crate) alloc: Global,
    pub(crate) gate: &'a G,
    pub(crate) hasher: NameHasher,
    /// Each client raises it as it ends.
    pub(crate) ended: &'a AtomicU64,
    pub(crate) clients: u64,
}

impl<'a, G: Gate> Common<'a, G> {
    /// The same for another seat.
    fn share(&self) -> Common<'a, G> {
        Common {
            alloc: self.alloc,
            gate: self.gate,
            hasher: self.hasher,
            ended: self.ended,
            clients: self.clients,
        }
    }
}

/// Which work a seat has.
#[derive(Drop)]
pub(crate) enum Role<U, N: Notify> {
    /// It does these lines.
    Client(Vec<ClientCall<U, N>>, ClientEnd<N>),
    /// It does jobs until the clients have ended.
    Worker,
}

/// The work of a seat, and who was told at its calls.
#[derive(Drop)]
pub(crate) struct Member<'a, U, N: Notify, G: Gate> {
    pub(crate) common: Common<'a, G>,
    pub(crate) role: Role<U, N>,
    pub(crate) fired: FiredList<N>,
}

impl<'a, U: LinkedUnit, N: Notify, G: Gate, const JMAX: usize> Duty<Home<U, N, JMAX>>
    for Member<'a, U, N, G> {
    ghost may = { λ posts member v. (posts ≡ POSTS) × IsFree U.meaning v × CanBegin U.meaning N.heard N.number member };

    ghost does = { Serves U.meaning N.heard N.number JMAX };

    fn serve<R: Wait>(&mut self, rt: &R, turn: &Shared<U, N, JMAX>, seat: &mut Pass<U, N, JMAX>) {
        let Common {
            alloc,
            gate,
            hasher,
            ended,
            clients,
        } = self.common.share();
        match &mut self.role {
            Role::Client(calls, client) => {
                let calls = replace(calls, Vec::new(alloc));
                do_lines(
                    rt,
                    alloc,
                    turn,
                    seat,
                    gate,
                    hasher,
                    calls,
                    client,
                    &mut self.fired,
                );
                ended.fetch_add(1, Ordering::SeqCst);
            }
            Role::Worker => {
                self.fired = do_jobs(rt, alloc, turn, seat, gate, ended, clients);
            }
        }
    }
}

/// A member for each worker, and then one for each client, the first client last, so that it has the first
/// seat. `ended` counts the clients that have ended: none yet.
pub(crate) fn make_members<'a, U: Drop, N: Notify, G: Gate>(
    alloc: Global,
    gate: &'a G,
    hasher: NameHasher,
    ended: &'a AtomicU64,
    clients: Vec<Vec<ClientCall<U, N>>>,
    workers: u32,
) -> Result<Vec<Member<'a, U, N, G>>, AllocError>
    ensures { IfOk result (λ members. AreMembers (map (λ c. c.items) clients.items) workers members.items) }
{
    let common = Common {
        alloc,
        gate,
        hasher,
        ended,
        clients: clients.len() as u64,
    };
    let mut members = Vec::with_capacity(alloc, workers as usize + clients.len())?;
    for _worker in 0..workers {
        members.push_reserved(Member {
            common: common.share(),
            role: Role::Worker,
            fired: FiredList::new(),
        });
    }
    add_clients(&common, clients, &mut members)?;
    Ok(members)
}

/// A member for each client, the first client last.
fn add_clients<'a, U: Drop, N: Notify, G: Gate>(
    common: &Common<'a, G>,
    clients: Vec<Vec<ClientCall<U, N>>>,
    members: &mut Vec<Member<'a, U, N, G>>,
) -> Result<(), AllocError>
    requires { length members.old.items + length clients.items ≤ vec_capacity members.old }
    ensures { OnOk result (AreAdded (map (λ c. c.items) clients.items) members.old.items members.new.items) }
{
    let mut clients = clients;
    while let Some(calls) = clients.pop() {
        let client = ClientEnd::with_room(common.alloc, calls.len())?;
        members.push_reserved(Member {
            common: common.share(),
            role: Role::Client(calls, client),
            fired: FiredList::new(),
        });
    }
    Ok(())
}

/// No line is done.
pub(crate) fn skip_all<'a, U: UnitKind, N: Notify, G: Gate>(
    members: Vec<Member<'a, U, N, G>>,
    room: Vec<Member<'a, U, N, G>>,
) -> Vec<Member<'a, U, N, G>>
    requires can { All (CanBegin U.meaning N.heard N.number) members.items }
    requires room { (room.items ≡ []) × (length members.items ≤ vec_capacity room) }
    ensures { AllSkipped U.meaning N.heard N.number members.entry.items result.items }
{
    let mut skipped = room;
    for member in members {
        skipped.push_reserved(skip_lines(member));
    }
    skipped
}

/// No line of the member is done.
fn skip_lines<'a, U: UnitKind, N: Notify, G: Gate>(
    member: Member<'a, U, N, G>,
) -> Member<'a, U, N, G>
    requires { CanBegin U.meaning N.heard N.number member }
    ensures { WasSkipped U.meaning N.heard N.number member.entry result }
{
    let Member {
        common,
        role,
        fired,
    } = member;
    let role = match role {
        Role::Client(calls, client) => Role::Client(
            Vec::new(common.alloc),
            skip_calls(calls, client),
        ),
        Role::Worker => Role::Worker,
    };
    Member {
        common,
        role,
        fired,
    }
}

/// The ends of lines that are not done.
fn skip_calls<U: UnitKind, N: Notify>(
    calls: Vec<ClientCall<U, N>>,
    client: ClientEnd<N>,
) -> ClientEnd<N>
    requires empty { IsEmpty (length calls.items) client }
    requires can { All (CanCall U.meaning N.heard N.number) calls.items }
    ensures lines { AreSkipped (map (line_of U.meaning) calls.items) result.lines.items }
    ensures unlodged { AreUnheard N.heard N.number result.unlodged.items }
{
    let mut client = client;
    for call in calls {
        client.add(skip(call));
    }
    client
}
