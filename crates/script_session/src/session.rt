//! The whole session of a script.
ghost use Rattle.std.specs.Prelude.{◌≡◌, ◌≤◌, ◌<◌, ◌+◌, ◌^◌, ◌++◌, ◌∷◌, ℕ, List, [], All, None, length, map, vec_capacity, IfOk, IfSome};
ghost use Rattle.session_model.specs.State.{plain_history};
ghost use Rattle.shared_session.specs.declared.posts.TheConstants.{POSTS};
ghost use Rattle.execution_session.specs.declared.session.TheConstants.{JOURNAL_LIMIT};
ghost use Rattle.turn_lock.specs.Handles.{view, turn_id, post_count, IsReady};
ghost use Rattle.link_worker.specs.First.{IsFirst};
ghost use Rattle.script_model.specs.Scripts.{IsScriptRun};
ghost use Rattle.script_session.specs.Members.{CanBegin, ends_in, unlodged_in};
ghost use Rattle.script_model.specs.Plans.{CanRun, script_of};
ghost use Rattle.script_session.specs.Leaving.{AreNotified, HasRoom, HasTaken, HaveLeft, IsNothing};

use crate::members::{Member, Role, make_members, skip_all};
use crate::setting_up::set_up;
use crew::Crew;
use execution_session::Session;
use link_worker::LinkedUnit;
use notifiers::FiredList;
use orc_ids::Stop;
use orc_io::{Gate, Notify};
use orc_names::NameHasher;
use script_model::{Plan, ScriptEnd};
use shared_session::{Pass, Shared, close, open_posts};
use std::alloc::{AllocError, Global};
use std::sync::Wait;
use std::sync::atomic::AtomicU64;
use std::thread::Threads;

/// Who works on a script, with the seats that they get.
type Members<'a, U, N, G, const JMAX: usize> = Crew<Pass<U, N, JMAX>, Member<'a, U, N, G>>;

/// What became of the notifiers of a script: those that were told, by whose calls, and those that no query
/// has, with their notes. The others are with the session.
#[derive(Drop)]
pub struct Notified<N: Notify> {
    pub told: Vec<FiredList<N>>,
    pub unlodged: Vec<Vec<(u32, N)>>,
}

/// A session that a script was run on, how its lines ended, and who was told.
pub struct ScriptSession<U: LinkedUnit, N: Notify, const JMAX: usize> {
    pub session: Session<U, N, JMAX>,
    pub end: ScriptEnd,
    pub notified: Notified<N>,
}

/// What the members leave, with room for them.
#[derive(Drop)]
struct Left<N: Notify> {
    end: ScriptEnd,
    notified: Notified<N>,
}

impl<N: Notify> Left<N> {
    /// Nothing yet, with room for so many members.
    fn with_room(alloc: Global, members: usize) -> Result<Left<N>, AllocError>
        ensures empty { IfOk result IsNothing }
        ensures room { IfOk result (HasRoom members) }
    {
        Ok(Left {
            end: ScriptEnd {
                set_up: None,
                clients: Vec::with_capacity(alloc, members)?,
            },
            notified: Notified {
                told: Vec::with_capacity(alloc, members)?,
                unlodged: Vec::with_capacity(alloc, members)?,
            },
        })
    }

    /// What a member leaves; clients come in the order of their seats.
    fn take_in<'a, U: Drop, G: Gate>(&mut self, member: Member<'a, U, N, G>)
        requires { HasRoom 1 self.old }
        ensures set_up { self.new.end.set_up ≡ self.old.end.set_up }
        ensures clients { map (λ c. c.items) self.new.end.clients.items ≡ map (λ c. c.items) self.old.end.clients.items ++ ends_in member.entry.role }
        ensures told { self.new.notified.told.items ≡ self.old.notified.told.items ++ member.entry.fired ∷ [] }
        ensures unlodged { map (λ c. c.items) self.new.notified.unlodged.items ≡ map (λ c. c.items) self.old.notified.unlodged.items ++ unlodged_in member.entry.role }
        ensures room { (n : ℕ) → HasRoom (1 + n) self.old → HasRoom n self.new }
    {
        let Member { role, fired, .. } = member;
        self.notified.told.push_reserved(fired);
        if let Role::Client(_, client) = role {
            self.end.clients.push_reserved(client.lines);
            self.notified.unlodged.push_reserved(client.unlodged);
        }
    }
}

/// Takes in what all members leave, the last one first.
fn take_all<'a, U: Drop, N: Notify, G: Gate>(members: Vec<Member<'a, U, N, G>>, left: &mut Left<N>)
    requires { HasRoom (length members.items) left.old }
    ensures { HasTaken left.old left.new members.entry.items }
{
    let mut members = members;
    while let Some(member) = members.pop() {
        left.take_in(member);
    }
}

/// All work, unless the set-up was stopped, and what they leave is taken in.
fn run_members<
    'a,
    U: LinkedUnit + Send + Sync,
    N: Notify + Send,
    G: Gate + Sync,
    R: Threads + Wait + Sync,
    const JMAX: usize,
>(
    rt: &R,
    shared: &Shared<U, N, JMAX>,
    first: &mut Pass<U, N, JMAX>,
    members: Members<'a, U, N, G, JMAX>,
    room: Vec<Member<'a, U, N, G>>,
    left: &mut Left<N>,
)
    requires ready { IsReady (turn_id shared.now) first.old }
    requires posts { post_count shared.now ≡ POSTS }
    requires first { IsFirst U.meaning JMAX (view first.old) }
    requires spare { (view first.old).spare_from + length members ≤ (view first.old).spare_to }
    requires can { All (CanBegin U.meaning N.heard N.number) members }
    requires room { (room.items ≡ []) × (length members ≤ vec_capacity room) }
    requires left { HasRoom (length members) left.old }
    ensures ready { IsReady (turn_id shared.now) first.new }
    ensures left { HaveLeft U.meaning N.heard N.number JMAX (view first.old) (view first.new) members.entry left.old left.new }
{
    let done = match left.end.set_up {
        None => members.work(rt, shared, first),
        Some(_) => skip_all(members.into_duties(), room),
    };
    take_all(done, left);
}

/// Runs the session of a script, with so many workers, each client and worker on a thread of its own where
/// there are threads.
pub fn run_script<
    U: LinkedUnit + Send + Sync,
    N: Notify + Send,
    G: Gate + Sync,
    R: Threads + Wait + Sync,
    const JMAX: usize,
>(
    rt: &R,
    alloc: Global,
    hasher: NameHasher,
    plan: Plan<U, N>,
    gate: &G,
    workers: u32,
) -> Result<ScriptSession<U, N, JMAX>, AllocError>
    requires limit { JMAX ≤ JOURNAL_LIMIT }
    requires few { length plan.clients.items + workers + 1 < 2 ^ 32 }
    requires can { CanRun U.meaning N.heard N.number plan }
    ensures run { IfOk result (λ s. IsScriptRun JMAX workers (script_of U.meaning plan) s.end.set_up
        (map (λ c. c.items) s.end.clients.items) (plain_history U.meaning s.session.journal)) }
    ensures notified { IfOk result (λ s. AreNotified N.heard N.number (length plan.clients.items + workers)
        (plain_history U.meaning s.session.journal) s.notified) }
{
    let Plan {
        set_up: calls,
        clients,
    } = plan;
    let seats = clients.len() as u32 + workers + 1;
    let count = clients.len() + workers as usize;
    let mut left = Left::with_room(alloc, count)?;
    let ended = AtomicU64::new(0);
    let members = make_members(alloc, gate, hasher, &ended, clients, workers)?;
    let members = Crew::new(alloc, members)?;
    let room = Vec::with_capacity(alloc, count)?;
    let (shared, first) = open_posts(alloc, seats)?;
    let mut first = first;
    left.end.set_up = set_up(rt, &shared, &mut first, calls);
    run_members(rt, &shared, &mut first, members, room, &mut left);
    let session = close(rt, shared, first);
    let Left { end, notified } = left;
    Ok(ScriptSession {
        session,
        end,
        notified,
    })
}
