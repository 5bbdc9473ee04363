//! A line of a client.
ghost use Rattle.std.specs.Prelude.{◌≡◌, ◌⊎◌, ◌++◌, ◌≤◌, List, None, Some, false, length, option_map, All, IfOk, IfSome};
ghost use Rattle.session_model.specs.Calls as calls;
ghost use Rattle.session_model.specs.Meaning.{Bindings};
ghost use Rattle.session_model.specs.declared.entry.Event.TheVariants as event;
ghost use Rattle.orc_ids.specs.declared.ids.NameId.{NameId};
ghost use Rattle.orc_ids.specs.declared.limits.TheConstants.{ORDER_LIMIT, WANTED_LIMIT};
ghost use Rattle.notifiers.specs.declared.notice.Notice.{Notice};
ghost use Rattle.turn_lock.specs.Handles.{view, turn_id, post_count, IsReady};
ghost use Rattle.shared_session.specs.declared.posts.TheConstants.{POSTS};
ghost use Rattle.shared_session.specs.Did.{Did, Nothing};
ghost use Rattle.link_worker.specs.Works.{IsFree};
ghost use Rattle.script_model.specs.Given.{Given, address_of, given_match};
ghost use Rattle.script_model.specs.Asking.{One, LookUp, PeekAt, Run};
ghost use Rattle.script_model.specs.Lines.{given_by};
ghost use Rattle.script_session.specs.Clients.{HasDone};
ghost use Rattle.script_session.specs.Lines.{AreSame, is_stopped, line_end, lookup_end};
ghost use Rattle.script_session.specs.Posts.{KnowsGiven, KnowsMatch, MayBeKept};
ghost use Rattle.script_model.specs.Plans.{CanCall, IsUnheard, line_of, lookup_of};

use exec_run::{Ran, run};
use execution_session::Told;
use link_worker::{LinkedUnit, Looked, copy_memory, lookup};
use notifiers::{Armed, FiredList};
use orc_ids::{InstId, Level, NameId, Stop};
use orc_io::{Gate, Notify};
use ready_words::{peek_at, post_found};
use script_model::{ClientCall, GivenNames, LineEnd, Lookup};
use session_model::{LookEnd, Peek, Reply};
use shared_session::{Define, MoveTracker, Pass, Remove, Shared};
use std::alloc::{AllocError, Global};
use std::sync::Wait;

/// How a line ended, and its notifier where no query has it.
#[derive(Drop)]
pub(crate) struct LineDone<N: Notify> {
    pub(crate) end: LineEnd,
    pub(crate) back: Option<(u32, N)>,
}

/// How a line of one call ended.
fn line_end(answer: Result<Reply, Stop>) -> LineEnd
    ensures { result ≡ line_end answer }
{
    match answer {
        Ok(reply) => LineEnd::Replied(reply),
        Err(stop) => LineEnd::Stopped(stop),
    }
}

/// How a lookup ended, as the end of its line.
fn lookup_end(end: LookEnd) -> LineEnd
    ensures { result ≡ lookup_end end }
{
    match end {
        LookEnd::JournalFull(len) => LineEnd::Stopped(Stop::JournalFull(len)),
        LookEnd::NoMemory => LineEnd::Stopped(Stop::NoMemory),
        end => LineEnd::Looked(end),
    }
}

/// A notifier that may be lodged, or none for a line without one.
fn arm<N: Notify>(alloc: Global, watch: Option<(u32, N)>) -> Result<Option<Armed<N>>, AllocError>
    requires { IsUnheard N.heard N.number watch }
    ensures { IfOk result (λ armed. option_map (λ a. a.note) armed ≡ option_map (λ w. w.0) watch) }
{
    match watch {
        Some((note, what)) => Ok(Some(Armed::new(alloc, note, what)?)),
        None => Ok(None),
    }
}

/// The notifier that came back, with its note.
fn unlodged<N: Notify>(armed: Option<Armed<N>>) -> Option<(u32, N)>
    ensures { IsUnheard N.heard N.number result }
{
    armed.map(|armed| (armed.note(), armed.back()))
}

/// Sees the history again, and posts what a lookup up to the level found, if it is ready.
fn post_ready<U: LinkedUnit, N: Notify, const JMAX: usize>(
    shared: &Shared<U, N, JMAX>,
    pass: &mut Pass<U, N, JMAX>,
    level: Level,
    found: &[Option<(InstId, u64)>],
)
    requires ready { IsReady (turn_id shared.now) pass.old }
    requires posts { post_count shared.now ≡ POSTS }
    requires free { IsFree U.meaning (view pass.old) }
    requires may { MayBeKept U.meaning JMAX level found.now (view pass.old).seen }
    ensures ready { IsReady (turn_id shared.now) pass.new }
    ensures free { IsFree U.meaning (view pass.new) }
    ensures quiet { Did U.meaning (view pass.old) (view pass.new) Nothing }
    ensures known { All (λ o. IfSome o (λ p. KnowsMatch (view pass.new) (given_match level p))) found.now }
{
    let _entries = shared.front(pass);
    match level {
        Level::Ready => post_found(shared, pass, found),
        Level::Resolved => {}
    }
}

/// Keeps what a lookup gave, and posts what is ready. Where there is no memory for it, the line is stopped.
fn keep_given<U: LinkedUnit, N: Notify, const JMAX: usize>(
    shared: &Shared<U, N, JMAX>,
    pass: &mut Pass<U, N, JMAX>,
    given: &mut GivenNames,
    names: &Lookup,
    end: LookEnd,
) -> LineEnd
    requires ready { IsReady (turn_id shared.now) pass.old }
    requires posts { post_count shared.now ≡ POSTS }
    requires free { IsFree U.meaning (view pass.old) }
    requires may { (found : Bindings) → end ≡ LookEnd.Found found → MayBeKept U.meaning JMAX names.now.level found (view pass.old).seen }
    requires known { KnowsGiven given.old (view pass.old) }
    ensures ready { IsReady (turn_id shared.now) pass.new }
    ensures free { IsFree U.meaning (view pass.new) }
    ensures quiet { Did U.meaning (view pass.old) (view pass.new) Nothing }
    ensures end { (result ≡ lookup_end end) ⊎ ((matches : Bindings) × (end ≡ LookEnd.Found matches) × (result ≡ LineEnd.Stopped Stop.NoMemory)) }
    ensures given { (lookup : calls.Lookup) (g : Given) → lookup.level ≡ names.now.level → lookup.wanted ≡ names.now.wanted → AreSame given.old g →
        is_stopped result ≡ false → AreSame given.new (given_by (LookUp lookup) result ++ g) }
    ensures known { is_stopped result ≡ false → KnowsGiven given.new (view pass.new) }
{
    match &end {
        LookEnd::Found(matches) => {
            let found = matches.as_slice();
            post_ready(shared, pass, names.level, found);
            match given.add(names.level, names.wanted.as_slice(), found) {
                Ok(()) => lookup_end(end),
                Err(_) => LineEnd::Stopped(Stop::NoMemory),
            }
        }
        _ => lookup_end(end),
    }
}

/// Looks names up.
fn look_up<U: LinkedUnit, N: Notify, G: Gate, R: Wait, const JMAX: usize>(
    rt: &R,
    alloc: Global,
    shared: &Shared<U, N, JMAX>,
    pass: &mut Pass<U, N, JMAX>,
    gate: &G,
    names: &Lookup,
    watch: Option<(u32, N)>,
    given: &mut GivenNames,
    fired: &mut FiredList<N>,
) -> LineDone<N>
    requires ready { IsReady (turn_id shared.now) pass.old }
    requires free { IsFree U.meaning (view pass.old) }
    requires order { length names.now.order ≤ ORDER_LIMIT }
    requires wanted { length names.now.wanted ≤ WANTED_LIMIT }
    requires unheard { IsUnheard N.heard N.number watch }
    requires posts { post_count shared.now ≡ POSTS }
    requires known { KnowsGiven given.old (view pass.old) }
    ensures ready { IsReady (turn_id shared.now) pass.new }
    ensures free { IsFree U.meaning (view pass.new) }
    ensures done { (g : Given) → HasDone U.meaning N.heard JMAX g (LookUp (lookup_of names.now watch)) result.end
        (view pass.old) (view pass.new) fired.old fired.new }
    ensures known { is_stopped result.end ≡ false → KnowsGiven given.new (view pass.new) }
    ensures back { IsUnheard N.heard N.number result.back }
    ensures given { (g : Given) → AreSame given.old g → is_stopped result.end ≡ false →
        AreSame given.new (given_by (LookUp (lookup_of names.now watch)) result.end ++ g) }
{
    let Ok(then) = arm(alloc, watch) else {
        return LineDone {
            end: LineEnd::Stopped(Stop::NoMemory),
            back: None,
        };
    };
    let Looked { end, back } = lookup(
        rt,
        alloc,
        shared,
        pass,
        names.order.as_slice(),
        names.wanted.as_slice(),
        names.level,
        then,
        gate,
        fired,
    );
    LineDone {
        end: keep_given(shared, pass, given, names, end),
        back: unlodged(back),
    }
}

/// A line that has no notifier ended so.
fn without_note<N: Notify>(end: LineEnd) -> LineDone<N>
    ensures end { result.end ≡ end }
    ensures back { result.back ≡ None }
{
    LineDone { end, back: None }
}

/// Runs from an address, in the memory as it is now.
fn run_from<U: LinkedUnit, N: Notify, R: Wait, const JMAX: usize>(
    rt: &R,
    alloc: Global,
    shared: &Shared<U, N, JMAX>,
    pass: &mut Pass<U, N, JMAX>,
    address: u64,
    fuel: u64,
    args: &[u64],
) -> LineEnd
    requires ready { IsReady (turn_id shared.now) pass.old }
    requires free { IsFree U.meaning (view pass.old) }
    requires few { length args.now ≤ 8 }
    ensures ready { IsReady (turn_id shared.now) pass.new }
    ensures free { IsFree U.meaning (view pass.new) }
    ensures done { (g : Given) (name : NameId) (told : List (Notice N)) → address_of name g ≡ Some address →
        HasDone U.meaning N.heard JMAX g (Run name fuel args.now) result (view pass.old) (view pass.new) told told }
{
    match copy_memory(rt, shared, pass) {
        Ok(image) => match run(alloc, &image, address, args, fuel) {
            Ok(Ran { end, output }) => LineEnd::Ran(end, output),
            Err(_) => LineEnd::Stopped(Stop::NoMemory),
        },
        Err(stop) => LineEnd::Stopped(stop),
    }
}

/// Runs from a name, if a lookup gave it an address.
fn run_name<U: LinkedUnit, N: Notify, R: Wait, const JMAX: usize>(
    rt: &R,
    alloc: Global,
    shared: &Shared<U, N, JMAX>,
    pass: &mut Pass<U, N, JMAX>,
    given: &GivenNames,
    name: NameId,
    fuel: u64,
    args: &[u64],
) -> LineEnd
    requires ready { IsReady (turn_id shared.now) pass.old }
    requires free { IsFree U.meaning (view pass.old) }
    requires few { length args.now ≤ 8 }
    ensures ready { IsReady (turn_id shared.now) pass.new }
    ensures free { IsFree U.meaning (view pass.new) }
    ensures done { (g : Given) (told : List (Notice N)) → AreSame given.now g →
        HasDone U.meaning N.heard JMAX g (Run name fuel args.now) result (view pass.old) (view pass.new) told told }
{
    match given.address(name) {
        Some(address) => run_from(rt, alloc, shared, pass, address, fuel, args),
        None => LineEnd::Unfound,
    }
}

/// Asks whether a name's instance is ready, if a lookup gave it one.
fn peek_name<U: LinkedUnit, N: Notify, const JMAX: usize>(
    shared: &Shared<U, N, JMAX>,
    pass: &mut Pass<U, N, JMAX>,
    given: &GivenNames,
    name: NameId,
) -> LineEnd
    requires ready { IsReady (turn_id shared.now) pass.old }
    requires posts { post_count shared.now ≡ POSTS }
    requires free { IsFree U.meaning (view pass.old) }
    requires known { KnowsGiven given.now (view pass.old) }
    ensures ready { IsReady (turn_id shared.now) pass.new }
    ensures free { IsFree U.meaning (view pass.new) }
    ensures done { (g : Given) (told : List (Notice N)) → AreSame given.now g →
        HasDone U.meaning N.heard JMAX g (PeekAt name) result (view pass.old) (view pass.new) told told }
{
    match given.match_of(name) {
        Some(found) => LineEnd::Peeked(peek_at(shared, pass, found.instance)),
        None => LineEnd::Peeked(Peek::Unfound),
    }
}

/// Defines a unit, which is no alias.
fn define<U: LinkedUnit, N: Notify, R: Wait, const JMAX: usize>(
    rt: &R,
    shared: &Shared<U, N, JMAX>,
    pass: &mut Pass<U, N, JMAX>,
    call: Define<U>,
) -> LineEnd
    requires ready { IsReady (turn_id shared.now) pass.old }
    requires free { IsFree U.meaning (view pass.old) }
    requires source { (U.meaning call.unit).source ≡ None }
    ensures ready { IsReady (turn_id shared.now) pass.new }
    ensures free { IsFree U.meaning (view pass.new) }
    ensures done { (g : Given) (told : List (Notice N)) →
        HasDone U.meaning N.heard JMAX g (One (event.Define call.dylib call.tracker (U.meaning call.unit))) result (view pass.old) (view pass.new) told told }
{
    line_end(shared.perform(rt, pass, call).answer)
}

/// Gives what a tracker has to another one.
fn move_tracker<U: LinkedUnit, N: Notify, R: Wait, const JMAX: usize>(
    rt: &R,
    shared: &Shared<U, N, JMAX>,
    pass: &mut Pass<U, N, JMAX>,
    call: MoveTracker,
) -> LineEnd
    requires ready { IsReady (turn_id shared.now) pass.old }
    requires free { IsFree U.meaning (view pass.old) }
    ensures ready { IsReady (turn_id shared.now) pass.new }
    ensures free { IsFree U.meaning (view pass.new) }
    ensures done { (g : Given) (told : List (Notice N)) →
        HasDone U.meaning N.heard JMAX g (One (event.MoveTracker call.from call.to)) result (view pass.old) (view pass.new) told told }
{
    line_end(shared.perform(rt, pass, call))
}

/// Removes all that a tracker has.
fn remove<U: LinkedUnit, N: Notify, R: Wait, const JMAX: usize>(
    rt: &R,
    shared: &Shared<U, N, JMAX>,
    pass: &mut Pass<U, N, JMAX>,
    call: Remove,
    fired: &mut FiredList<N>,
) -> LineEnd
    requires ready { IsReady (turn_id shared.now) pass.old }
    requires free { IsFree U.meaning (view pass.old) }
    ensures ready { IsReady (turn_id shared.now) pass.new }
    ensures free { IsFree U.meaning (view pass.new) }
    ensures done { (g : Given) → HasDone U.meaning N.heard JMAX g (One (event.Remove call.tracker)) result
        (view pass.old) (view pass.new) fired.old fired.new }
{
    let Told { answer, fires } = shared.perform(rt, pass, call);
    fires.fire_all(fired);
    line_end(answer)
}

/// Does a line.
pub(crate) fn do_line<U: LinkedUnit, N: Notify, G: Gate, R: Wait, const JMAX: usize>(
    rt: &R,
    alloc: Global,
    shared: &Shared<U, N, JMAX>,
    pass: &mut Pass<U, N, JMAX>,
    gate: &G,
    call: ClientCall<U, N>,
    given: &mut GivenNames,
    fired: &mut FiredList<N>,
) -> LineDone<N>
    requires ready { IsReady (turn_id shared.now) pass.old }
    requires free { IsFree U.meaning (view pass.old) }
    requires can { CanCall U.meaning N.heard N.number call }
    requires posts { post_count shared.now ≡ POSTS }
    requires known { KnowsGiven given.old (view pass.old) }
    ensures ready { IsReady (turn_id shared.now) pass.new }
    ensures free { IsFree U.meaning (view pass.new) }
    ensures done { (g : Given) → AreSame given.old g →
        HasDone U.meaning N.heard JMAX g (line_of U.meaning call) result.end (view pass.old) (view pass.new) fired.old fired.new }
    ensures back { IsUnheard N.heard N.number result.back }
    ensures given { (g : Given) → AreSame given.old g → is_stopped result.end ≡ false →
        AreSame given.new (given_by (line_of U.meaning call) result.end ++ g) }
    ensures known { is_stopped result.end ≡ false → KnowsGiven given.new (view pass.new) }
{
    match call {
        ClientCall::Define(dylib, tracker, unit) => {
            let call = Define {
                dylib,
                tracker,
                unit,
            };
            without_note(define(rt, shared, pass, call))
        }
        ClientCall::LookUp(names, watch) => {
            look_up(rt, alloc, shared, pass, gate, &names, watch, given, fired)
        }
        ClientCall::Move(from, to) => {
            without_note(move_tracker(rt, shared, pass, MoveTracker { from, to }))
        }
        ClientCall::Remove(tracker) => {
            without_note(remove(rt, shared, pass, Remove { tracker }, fired))
        }
        ClientCall::Run(name, fuel, args) => {
            let args = args.as_slice();
            without_note(run_name(rt, alloc, shared, pass, given, name, fuel, args))
        }
        ClientCall::Peek(name) => without_note(peek_name(shared, pass, given, name)),
    }
}
