//! The stages of a job.
ghost use Rattle.std.specs.Prelude.{◌≡◌, Bool};
ghost use Rattle.orc_ids.specs.declared.ids.UnitId.{UnitId};
ghost use Rattle.session_model.specs.declared.entry.Reply.TheVariants as reply;
ghost use Rattle.materialization.specs.Stages.{first, next, stopped};
ghost use Rattle.materialization.specs.declared.stage.Stage.TheVariants as stage;

use orc_ids::{GenId, Stop};
use session_model::{Finishing, Reply, Why};

/// Which call a job makes next.
#[derive(Clone, Copy, Drop)]
pub enum Stage {
    /// Place the unit.
    Place,
    /// Give the unit's symbols their addresses; then it is linked.
    Resolve,
    /// Look the unit's externals up.
    Link,
    /// Use the generator that the link was offered; then the unit is linked again.
    Generate(GenId),
    /// Give the alias its target's address; then it is emitted.
    ResolveAlias,
    /// Put the unit's bytes into memory.
    Emit,
    /// Give the unit up, for this cause.
    Fail(Why),
    /// None: the job is over.
    Over,
}

/// The first stage after a take with this reply, of a unit that is an alias or not, and that needs
/// memory or not.
pub fn first_stage(reply: &Reply, alias: bool, needs_memory: bool) -> Stage
    ensures { result ≡ first reply.now alias needs_memory }
{
    match reply {
        Reply::Start(_) => start_stage(alias, needs_memory),
        Reply::Finish(_, how) => finish_stage(how, alias),
        _ => Stage::Over,
    }
}

fn start_stage(alias: bool, needs_memory: bool) -> Stage
    ensures { (u : UnitId) → result ≡ first (reply.Start u) alias needs_memory }
{
    if alias {
        Stage::Link
    } else if needs_memory {
        Stage::Place
    } else {
        Stage::Resolve
    }
}

fn finish_stage(how: &Finishing, alias: bool) -> Stage
    ensures { (u : UnitId) (b : Bool) → result ≡ first (reply.Finish u how.now) alias b }
{
    match how {
        Finishing::Bound(_) if alias => Stage::ResolveAlias,
        Finishing::Bound(_) => Stage::Emit,
        Finishing::Lost(i) => Stage::Fail(Why::InError(*i)),
    }
}

/// The stage after one whose call was answered so.
pub fn next_stage(stage: Stage, reply: &Reply) -> Stage
    ensures { result ≡ next stage reply.now }
{
    match stage {
        Stage::Place => placed_stage(reply),
        Stage::Resolve => resolved_stage(reply),
        Stage::Link => linked_stage(reply),
        Stage::Generate(_) => Stage::Link,
        Stage::ResolveAlias => resolved_alias_stage(reply),
        Stage::Emit => emitted_stage(reply),
        Stage::Fail(_) => Stage::Over,
        Stage::Over => Stage::Over,
    }
}

fn placed_stage(reply: &Reply) -> Stage
    ensures { result ≡ next stage.Place reply.now }
{
    match reply {
        Reply::Placed(_) => Stage::Resolve,
        Reply::NoRoom(need) => Stage::Fail(Why::NoRoom(*need)),
        _ => Stage::Over,
    }
}

fn resolved_stage(reply: &Reply) -> Stage
    ensures { result ≡ next stage.Resolve reply.now }
{
    match reply {
        Reply::Resolved => Stage::Link,
        _ => Stage::Over,
    }
}

fn resolved_alias_stage(reply: &Reply) -> Stage
    ensures { result ≡ next stage.ResolveAlias reply.now }
{
    match reply {
        Reply::Resolved => Stage::Emit,
        _ => Stage::Over,
    }
}

fn linked_stage(reply: &Reply) -> Stage
    ensures { result ≡ next stage.Link reply.now }
{
    match reply {
        Reply::Offer(g) => Stage::Generate(*g),
        Reply::InError(i) => Stage::Fail(Why::InError(*i)),
        Reply::Missing(name) => Stage::Fail(Why::Missing(*name)),
        Reply::AliasCycle(i) => Stage::Fail(Why::AliasCycle(*i)),
        _ => Stage::Over,
    }
}

fn emitted_stage(reply: &Reply) -> Stage
    ensures { result ≡ next stage.Emit reply.now }
{
    match reply {
        Reply::BadDep(i) => Stage::Fail(Why::BadDep(*i)),
        _ => Stage::Over,
    }
}

/// The stage after one whose call was stopped: the unit is given up.
pub fn stopped_stage(stop: Stop) -> Stage
    ensures { result ≡ stopped stop }
{
    match stop {
        Stop::JournalFull(_) => Stage::Fail(Why::Full),
        Stop::NoMemory => Stage::Fail(Why::NoMemory),
    }
}
