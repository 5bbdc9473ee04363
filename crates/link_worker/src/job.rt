//! A job, and the calls of its stages. Each is made in one turn, and says which stage comes next.
ghost use Rattle.std.specs.Prelude.{◌≡◌, ◌<◌, ◌^◌, List, length, Ok, IfOk, IfErr, unwrap_or};
ghost use Rattle.orc_ids.specs.declared.ids.GenId.{GenId};
ghost use Rattle.session_model.specs.declared.entry.Why.{Why};
ghost use Rattle.session_model.specs.Meaning.{FitsUnit};
ghost use Rattle.notifiers.specs.declared.notice.Notice.{Notice};
ghost use Rattle.turn_lock.specs.Handles.{view, turn_id, IsReady};
ghost use Rattle.execution_session.specs.Holding.{IsFinished, own_shape};
ghost use Rattle.materialization.specs.declared.stage.Stage.TheVariants as stage;
ghost use Rattle.link_worker.specs.Jobs.{IsJobAt, Steps, next_by};
ghost use Rattle.link_worker.specs.Units.{Refuses, own_refusal, unfinished};

use crate::unit::{FinishError, LinkedUnit};
use execution_session::{Finished, NOTHING, TakenUnit, Told};
use materialization::{Stage, next_stage};
use notifiers::FiredList;
use orc_ids::{GenId, Shape, Stop, UnitId};
use orc_io::Notify;
use session_model::{Matches, Reply, Why};
use shared_session::{Emit, Fail, Generate, Link, Pass, Place, Resolve, Shared};
use std::alloc::Global;
use std::sync::Wait;

/// A job that was handed out: a unit, and once it is to be emitted its bindings.
#[derive(Drop)]
pub struct Job<U> {
    pub unit: UnitId,
    pub taken: TakenUnit<U>,
    pub bound: Matches,
}

/// The stage that an answer leads to, or the stop.
fn next_by(at: Stage, answer: Result<Reply, Stop>) -> Result<Stage, Stop>
    ensures { result ≡ next_by at answer }
{
    match answer {
        Ok(reply) => Ok(next_stage(at, &reply)),
        Err(stop) => Err(stop),
    }
}

/// What follows where a unit can't be finished: with an edge out of range it is to be given up.
fn unfinished(why: FinishError) -> Result<Stage, Stop>
    ensures { result ≡ unfinished why }
{
    match why {
        FinishError::Refused(place, kind, v) => Ok(Stage::Fail(Why::Refused(place, kind, v))),
        FinishError::NoMemory => Err(Stop::NoMemory),
    }
}

impl<U: LinkedUnit> Job<U> {
    /// The memory that the unit needs, which may be none.
    fn shape(&self) -> Shape
        requires { length self.now.taken.live ≡ length (U.meaning self.now.taken.share).offers }
        ensures { result ≡ own_shape U.meaning self.now.taken }
    {
        let live = self.taken.live.as_slice();
        self.taken.share.shape(live).unwrap_or(NOTHING)
    }

    /// The unit's groups and bytes.
    fn finish(&self, alloc: Global) -> Result<Finished, FinishError>
        requires fits { FitsUnit (U.meaning self.now.taken.share) self.now.taken.live self.now.bound self.now.taken.instances }
        requires low { unwrap_or self.now.taken.base 0 < 2 ^ 62 }
        ensures made { IfOk result (λ made. IsFinished (U.meaning self.now.taken.share) self.now.taken.live (unwrap_or self.now.taken.base 0) self.now.bound self.now.taken.instances made) }
        ensures refused { IfErr result (λ e. Refuses e (own_refusal U.meaning self.now)) }
    {
        self.taken.share.finish(
            alloc,
            self.taken.live.as_slice(),
            self.taken.base.unwrap_or(0),
            self.bound.as_slice(),
            self.taken.instances.as_slice(),
        )
    }

    /// Places the unit.
    fn place<N: Notify, R: Wait, const JMAX: usize>(
        &self,
        rt: &R,
        shared: &Shared<U, N, JMAX>,
        pass: &mut Pass<U, N, JMAX>,
    ) -> Result<Stage, Stop>
        requires ready { IsReady (turn_id shared.now) pass.old }
        requires at { IsJobAt U.meaning JMAX (view pass.old) self.now stage.Place }
        ensures ready { IsReady (turn_id shared.now) pass.new }
        ensures steps { (fired : List (Notice N)) → Steps U.meaning N.heard JMAX (view pass.old) (view pass.new) fired fired self.now stage.Place result }
    {
        let shape = self.shape();
        let unit = self.unit;
        let answer = shared.perform(rt, pass, Place { unit, shape });
        next_by(Stage::Place, answer)
    }

    /// Gives the unit's symbols their addresses.
    fn resolve<N: Notify, R: Wait, const JMAX: usize>(
        &self,
        rt: &R,
        shared: &Shared<U, N, JMAX>,
        pass: &mut Pass<U, N, JMAX>,
        fired: &mut FiredList<N>,
    ) -> Result<Stage, Stop>
        requires ready { IsReady (turn_id shared.now) pass.old }
        requires at { IsJobAt U.meaning JMAX (view pass.old) self.now stage.Resolve }
        ensures ready { IsReady (turn_id shared.now) pass.new }
        ensures steps { Steps U.meaning N.heard JMAX (view pass.old) (view pass.new) fired.old fired.new self.now stage.Resolve result }
    {
        let unit = self.unit;
        let Told { answer, fires } = shared.perform(rt, pass, Resolve { unit });
        fires.fire_all(fired);
        next_by(Stage::Resolve, answer)
    }

    /// Looks the unit's externals up.
    fn link<N: Notify, R: Wait, const JMAX: usize>(
        &self,
        rt: &R,
        shared: &Shared<U, N, JMAX>,
        pass: &mut Pass<U, N, JMAX>,
        fired: &mut FiredList<N>,
    ) -> Result<Stage, Stop>
        requires ready { IsReady (turn_id shared.now) pass.old }
        requires at { IsJobAt U.meaning JMAX (view pass.old) self.now stage.Link }
        ensures ready { IsReady (turn_id shared.now) pass.new }
        ensures steps { Steps U.meaning N.heard JMAX (view pass.old) (view pass.new) fired.old fired.new self.now stage.Link result }
    {
        let unit = self.unit;
        let Told { answer, fires } = shared.perform(rt, pass, Link { unit });
        fires.fire_all(fired);
        next_by(Stage::Link, answer)
    }

    /// Uses the generator that a link was offered.
    fn generate<N: Notify, R: Wait, const JMAX: usize>(
        &self,
        rt: &R,
        shared: &Shared<U, N, JMAX>,
        pass: &mut Pass<U, N, JMAX>,
        generator: GenId,
    ) -> Result<Stage, Stop>
        requires ready { IsReady (turn_id shared.now) pass.old }
        requires at { IsJobAt U.meaning JMAX (view pass.old) self.now (stage.Generate generator) }
        ensures ready { IsReady (turn_id shared.now) pass.new }
        ensures steps { (fired : List (Notice N)) → Steps U.meaning N.heard JMAX (view pass.old) (view pass.new) fired fired self.now (stage.Generate generator) result }
    {
        let answer = shared.perform(rt, pass, Generate { generator });
        next_by(Stage::Generate(generator), answer)
    }

    /// Gives an alias its target's address.
    fn resolve_alias<N: Notify, R: Wait, const JMAX: usize>(
        &self,
        rt: &R,
        shared: &Shared<U, N, JMAX>,
        pass: &mut Pass<U, N, JMAX>,
        fired: &mut FiredList<N>,
    ) -> Result<Stage, Stop>
        requires ready { IsReady (turn_id shared.now) pass.old }
        requires at { IsJobAt U.meaning JMAX (view pass.old) self.now stage.ResolveAlias }
        ensures ready { IsReady (turn_id shared.now) pass.new }
        ensures steps { Steps U.meaning N.heard JMAX (view pass.old) (view pass.new) fired.old fired.new self.now stage.ResolveAlias result }
    {
        let unit = self.unit;
        let Told { answer, fires } = shared.perform(rt, pass, Resolve { unit });
        fires.fire_all(fired);
        next_by(Stage::ResolveAlias, answer)
    }

    /// Puts these bytes into memory.
    fn deposit<N: Notify, R: Wait, const JMAX: usize>(
        &self,
        rt: &R,
        shared: &Shared<U, N, JMAX>,
        pass: &mut Pass<U, N, JMAX>,
        made: Finished,
        fired: &mut FiredList<N>,
    ) -> Result<Stage, Stop>
        requires ready { IsReady (turn_id shared.now) pass.old }
        requires at { IsJobAt U.meaning JMAX (view pass.old) self.now stage.Emit }
        requires made { IsFinished (U.meaning self.now.taken.share) self.now.taken.live (unwrap_or self.now.taken.base 0) self.now.bound self.now.taken.instances made }
        ensures ready { IsReady (turn_id shared.now) pass.new }
        ensures steps { Steps U.meaning N.heard JMAX (view pass.old) (view pass.new) fired.old fired.new self.now stage.Emit result }
    {
        let unit = self.unit;
        let Finished { groups, bytes } = made;
        let Told { answer, fires } = shared.perform(
            rt,
            pass,
            Emit {
                unit,
                groups,
                bytes,
            },
        );
        fires.fire_all(fired);
        next_by(Stage::Emit, answer)
    }

    /// Makes the unit's bytes and puts them into memory; with an edge out of range it is to be given up.
    fn emit<N: Notify, R: Wait, const JMAX: usize>(
        &self,
        rt: &R,
        alloc: Global,
        shared: &Shared<U, N, JMAX>,
        pass: &mut Pass<U, N, JMAX>,
        fired: &mut FiredList<N>,
    ) -> Result<Stage, Stop>
        requires ready { IsReady (turn_id shared.now) pass.old }
        requires at { IsJobAt U.meaning JMAX (view pass.old) self.now stage.Emit }
        ensures ready { IsReady (turn_id shared.now) pass.new }
        ensures steps { Steps U.meaning N.heard JMAX (view pass.old) (view pass.new) fired.old fired.new self.now stage.Emit result }
    {
        match self.finish(alloc) {
            Ok(made) => self.deposit(rt, shared, pass, made, fired),
            Err(why) => unfinished(why),
        }
    }

    /// Gives the unit up.
    fn fail<N: Notify, R: Wait, const JMAX: usize>(
        &self,
        rt: &R,
        shared: &Shared<U, N, JMAX>,
        pass: &mut Pass<U, N, JMAX>,
        why: Why,
        fired: &mut FiredList<N>,
    )
        requires ready { IsReady (turn_id shared.now) pass.old }
        requires at { IsJobAt U.meaning JMAX (view pass.old) self.now (stage.Fail why) }
        ensures ready { IsReady (turn_id shared.now) pass.new }
        ensures steps { Steps U.meaning N.heard JMAX (view pass.old) (view pass.new) fired.old fired.new self.now (stage.Fail why) (Ok stage.Over) }
    {
        let unit = self.unit;
        let Told { answer: _, fires } = shared.perform(rt, pass, Fail { unit, why });
        fires.fire_all(fired);
    }

    /// The call of a stage: which stage comes next, or the stop that ends the job.
    pub(crate) fn step<N: Notify, R: Wait, const JMAX: usize>(
        &self,
        rt: &R,
        alloc: Global,
        shared: &Shared<U, N, JMAX>,
        pass: &mut Pass<U, N, JMAX>,
        at: Stage,
        fired: &mut FiredList<N>,
    ) -> Result<Stage, Stop>
        requires ready { IsReady (turn_id shared.now) pass.old }
        requires at { IsJobAt U.meaning JMAX (view pass.old) self.now at }
        ensures ready { IsReady (turn_id shared.now) pass.new }
        ensures steps { Steps U.meaning N.heard JMAX (view pass.old) (view pass.new) fired.old fired.new self.now at result }
    {
        match at {
            Stage::Place => self.place(rt, shared, pass),
            Stage::Resolve => self.resolve(rt, shared, pass, fired),
            Stage::Link => self.link(rt, shared, pass, fired),
            Stage::Generate(generator) => self.generate(rt, shared, pass, generator),
            Stage::ResolveAlias => self.resolve_alias(rt, shared, pass, fired),
            Stage::Emit => self.emit(rt, alloc, shared, pass, fired),
            Stage::Fail(why) => {
                self.fail(rt, shared, pass, why, fired);
                Ok(Stage::Over)
            }
            Stage::Over => Ok(Stage::Over),
        }
    }
}
