//! One job: it is taken and carried to its end.
ghost use Rattle.std.specs.Prelude.{◌≡◌, false, length, None, IfSome, IfNone, is_none, is_some};
ghost use Rattle.materialization.specs.Stages.{first};
ghost use Rattle.turn_lock.specs.Handles.{view, turn_id, IsReady};
ghost use Rattle.link_worker.specs.Jobs.{IsHandedOut, IsJobAt, bound_in, is_cut, unit_in};
ghost use Rattle.link_worker.specs.Works.{Ends, HasBegun, HasWorked, IsFree, WasStopped, WorksOn, worked_by, worked_stopped};

use crate::job::Job;
use crate::unit::LinkedUnit;
use execution_session::TakenUnit;
use materialization::{Stage, first_stage, stopped_stage};
use notifiers::FiredList;
use orc_ids::{Items, Stop, UnitId};
use orc_io::{Gate, Notify};
use responsibility::Resp;
use session_model::{Finishing, Matches, Reply, UnitKind};
use shared_session::{Handed, Pass, Shared, Take};
use std::alloc::Global;
use std::sync::Wait;

/// What a pass that tried to do one job has done.
#[derive(Clone, Copy, Drop)]
pub enum Worked {
    /// One job, to its end.
    Did,
    /// Nothing: no job was listed.
    Idle,
    /// A call found no place in the journal, which had so many entries. A job that it was of was
    /// ended.
    JournalFull(u64),
    /// A call wanted memory. A job that it was of was ended.
    NoMemory,
}

impl Worked {
    /// What was done where a call was stopped.
    fn stopped(stop: Stop) -> Worked
        ensures { result ≡ worked_stopped stop }
    {
        match stop {
            Stop::JournalFull(len) => Worked::JournalFull(len),
            Stop::NoMemory => Worked::NoMemory,
        }
    }

    /// What was done by a job in which this call was stopped, or none.
    fn by(stop: Option<Stop>) -> Worked
        ensures { result ≡ worked_by stop }
    {
        match stop {
            Some(stop) => Worked::stopped(stop),
            None => Worked::Did,
        }
    }
}

/// The job is over, or there was none.
fn spend(responsibility: Option<Resp>) {
    if let Some(responsibility) = responsibility {
        responsibility.spend();
    }
}

/// The unit of the job that a take's reply hands out.
fn unit_of(reply: &Reply) -> Option<UnitId>
    ensures { result ≡ unit_in reply.now }
{
    match reply {
        Reply::Start(u) => Some(*u),
        Reply::Finish(u, _) => Some(*u),
        _ => None,
    }
}

/// The bindings that come with it.
fn bindings_of(alloc: Global, reply: Reply) -> Matches
    ensures { result ≡ bound_in reply }
{
    match reply {
        Reply::Finish(_, Finishing::Bound(bound)) => bound,
        _ => Items::new(alloc),
    }
}

/// The first stage of a unit's job.
fn stage_of<U: UnitKind>(reply: &Reply, taken: &TakenUnit<U>) -> Stage
    requires { length taken.now.live ≡ length (U.meaning taken.now.share).offers }
    ensures { result ≡ first reply.now (is_some (U.meaning taken.now.share).source) (is_some ((U.meaning taken.now.share).shape taken.now.live)) }
{
    let alias = taken.share.source().is_some();
    let needs_memory = taken.share.shape(taken.live.as_slice()).is_some();
    first_stage(reply, alias, needs_memory)
}

/// The job that a take's reply hands out, with its first stage.
fn job_of<U: LinkedUnit>(
    alloc: Global,
    reply: Reply,
    taken: TakenUnit<U>,
) -> Option<(Job<U>, Stage)>
    requires { length taken.live ≡ length (U.meaning taken.share).offers }
    ensures job { IfSome result (λ p. IsHandedOut U.meaning reply taken p.0 p.1) }
    ensures none { IfNone result (unit_in reply ≡ None) }
{
    let unit = unit_of(&reply)?;
    let stage = stage_of(&reply, &taken);
    taken.share.known();
    let bound = bindings_of(alloc, reply);
    let job = Job { unit, taken, bound };
    Some((job, stage))
}

impl<U: LinkedUnit> Job<U> {
    /// Carries the job from a stage to its end. The answer is the last stop of a call, if one was
    /// stopped.
    fn carry<N: Notify, R: Wait, const JMAX: usize>(
        &self,
        rt: &R,
        alloc: Global,
        shared: &Shared<U, N, JMAX>,
        pass: &mut Pass<U, N, JMAX>,
        first: Stage,
        fired: &mut FiredList<N>,
    ) -> Option<Stop>
        requires ready { IsReady (turn_id shared.now) pass.old }
        requires at { IsJobAt U.meaning JMAX (view pass.old) self.now first }
        requires spares { is_cut first ≡ false }
        ensures ready { IsReady (turn_id shared.now) pass.new }
        ensures free { IsFree U.meaning (view pass.new) }
        ensures carried { Ends U.meaning N.heard JMAX (view pass.old) (view pass.new) fired.old fired.new self.now first (is_none result) }
        ensures stopped { IfSome result (WasStopped U.meaning JMAX (view pass.old).seen (view pass.new).seen) }
    {
        let mut stage = first;
        let mut stopped = None;
        for _ in rt.forever() {
            if let Stage::Over = stage {
                return stopped;
            }
            match self.step(rt, alloc, shared, pass, stage, fired) {
                Ok(next) => stage = next,
                Err(stop) => {
                    stage = stopped_stage(stop);
                    stopped = Some(stop);
                }
            }
        }
        unreachable!()
    }
}

/// Carries out the job that a take handed out, if it did.
fn work_on<U: LinkedUnit, N: Notify, G: Gate, R: Wait, const JMAX: usize>(
    rt: &R,
    alloc: Global,
    shared: &Shared<U, N, JMAX>,
    pass: &mut Pass<U, N, JMAX>,
    gate: &G,
    reply: Reply,
    unit: Option<TakenUnit<U>>,
    fired: &mut FiredList<N>,
) -> Worked
    requires ready { IsReady (turn_id shared.now) pass.old }
    requires begun { HasBegun U.meaning JMAX (view pass.old) reply unit }
    ensures ready { IsReady (turn_id shared.now) pass.new }
    ensures free { IsFree U.meaning (view pass.new) }
    ensures worked { WorksOn U.meaning N.heard JMAX (view pass.old) (view pass.new) fired.old fired.new reply unit result }
{
    let Some(taken) = unit else {
        return Worked::Idle;
    };
    let Some((job, first)) = job_of(alloc, reply, taken) else {
        return Worked::Idle;
    };
    gate.at(job.unit.0);
    Worked::by(job.carry(rt, alloc, shared, pass, first, fired))
}

/// Takes one job, passes the gate by its unit's number, and carries it to its end, a fail of its unit
/// included.
pub fn work_one<U: LinkedUnit, N: Notify, G: Gate, R: Wait, const JMAX: usize>(
    rt: &R,
    alloc: Global,
    shared: &Shared<U, N, JMAX>,
    pass: &mut Pass<U, N, JMAX>,
    gate: &G,
    fired: &mut FiredList<N>,
) -> Worked
    requires ready { IsReady (turn_id shared.now) pass.old }
    requires free { IsFree U.meaning (view pass.old) }
    ensures ready { IsReady (turn_id shared.now) pass.new }
    ensures free { IsFree U.meaning (view pass.new) }
    ensures worked { HasWorked U.meaning N.heard JMAX (view pass.old) (view pass.new) fired.old fired.new result }
{
    let Handed {
        answer,
        unit,
        responsibility,
    } = shared.perform(rt, pass, Take);
    match answer {
        Ok(reply) => {
            let worked = work_on(rt, alloc, shared, pass, gate, reply, unit, fired);
            spend(responsibility);
            worked
        }
        Err(stop) => {
            spend(responsibility);
            Worked::stopped(stop)
        }
    }
}
