//! The lines of a client, one after the other.
ghost use Rattle.std.specs.Prelude.{◌≡◌, ◌≤◌, ◌<◌, ◌+◌, ◌++◌, ◌||◌, false, List, [], ◌∷◌, All, length, map, vec_capacity, IfOk};
ghost use Rattle.turn_lock.specs.Handles.{view, turn_id, post_count, IsReady};
ghost use Rattle.link_worker.specs.Works.{IsFree};
ghost use Rattle.script_model.specs.Asking.{Line};
ghost use Rattle.script_session.specs.Clients.{AreUnheard, HasDoneAll, HasDoneSome, IsEmpty};
ghost use Rattle.script_session.specs.Lines.{is_stopped};
ghost use Rattle.script_session.specs.Posts.{KnowsGiven};
ghost use Rattle.shared_session.specs.declared.posts.TheConstants.{POSTS};
ghost use Rattle.session_model.specs.declared.entry.Entry.{Entry};
ghost use Rattle.notifiers.specs.declared.notice.Notice.{Notice};
ghost use Rattle.script_model.specs.declared.line_end.LineEnd.{LineEnd};
ghost use Rattle.turn_lock.specs.declared.view.View.{View};
ghost use Rattle.script_model.specs.Plans.{CanCall, IsUnheard, line_of};

use crate::lines::{LineDone, do_line};
use link_worker::LinkedUnit;
use notifiers::FiredList;
use orc_io::{Gate, Notify};
use orc_names::NameHasher;
use script_model::{ClientCall, GivenNames, LineEnd};
use session_model::UnitKind;
use shared_session::{Pass, Shared};
use std::alloc::{AllocError, Global};
use std::sync::Wait;

/// How the lines of a client ended, and the notifiers that no query has.
#[derive(Drop)]
pub(crate) struct ClientEnd<N: Notify> {
    pub(crate) lines: Vec<LineEnd>,
    pub(crate) unlodged: Vec<(u32, N)>,
}

impl<N: Notify> ClientEnd<N> {
    /// Nothing yet, with room for so many lines.
    pub(crate) fn with_room(alloc: Global, lines: usize) -> Result<ClientEnd<N>, AllocError>
        ensures { IfOk result (IsEmpty lines) }
    {
        Ok(ClientEnd {
            lines: Vec::with_capacity(alloc, lines)?,
            unlodged: Vec::with_capacity(alloc, lines)?,
        })
    }

    /// A line ended so.
    pub(crate) fn add(&mut self, done: LineDone<N>)
        requires lines { length self.old.lines.items < vec_capacity self.old.lines }
        requires unlodged { length self.old.unlodged.items < vec_capacity self.old.unlodged }
        requires unheard { IsUnheard N.heard N.number done.back }
        ensures lines { self.new.lines.items ≡ self.old.lines.items ++ done.end ∷ [] }
        ensures lines_room { vec_capacity self.new.lines ≡ vec_capacity self.old.lines }
        ensures unlodged { length self.new.unlodged.items ≤ length self.old.unlodged.items + 1 }
        ensures unlodged_room { vec_capacity self.new.unlodged ≡ vec_capacity self.old.unlodged }
        ensures unheard { AreUnheard N.heard N.number self.old.unlodged.items → AreUnheard N.heard N.number self.new.unlodged.items }
    {
        self.lines.push_reserved(done.end);
        if let Some(note) = done.back {
            self.unlodged.push_reserved(note);
        }
    }
}

/// A line that is not done.
pub(crate) fn skip<U: UnitKind, N: Notify>(call: ClientCall<U, N>) -> LineDone<N>
    requires { CanCall U.meaning N.heard N.number call }
    ensures end { result.end ≡ LineEnd.Skipped }
    ensures back { IsUnheard N.heard N.number result.back }
{
    let back = match call {
        ClientCall::LookUp(_, watch) => watch,
        _ => None,
    };
    LineDone {
        end: LineEnd::Skipped,
        back,
    }
}

/// A call of the line was stopped.
fn is_stopped(end: &LineEnd) -> bool
    ensures { result ≡ is_stopped end.now }
{
    matches!(end, LineEnd::Stopped(_))
}

/// Either holds.
fn is_either(one: bool, other: bool) -> bool
    ensures { result ≡ (one || other) }
{
    one || other
}

/// Does a line, or skips it after one that was stopped.
fn do_or_skip<U: LinkedUnit, N: Notify, G: Gate, R: Wait, const JMAX: usize>(
    rt: &R,
    alloc: Global,
    shared: &Shared<U, N, JMAX>,
    pass: &mut Pass<U, N, JMAX>,
    gate: &G,
    stopped: bool,
    call: ClientCall<U, N>,
    given: &mut GivenNames,
    fired: &mut FiredList<N>,
) -> LineDone<N>
    requires ready { IsReady (turn_id shared.now) pass.old }
    requires free { IsFree U.meaning (view pass.old) }
    requires can { CanCall U.meaning N.heard N.number call }
    requires posts { post_count shared.now ≡ POSTS }
    requires known { stopped ≡ false → KnowsGiven given.old (view pass.old) }
    ensures ready { IsReady (turn_id shared.now) pass.new }
    ensures free { IsFree U.meaning (view pass.new) }
    ensures next { (v : View (Entry U)) (first : List (Notice N)) (lines : List Line) (ends : List LineEnd) →
        HasDoneSome U.meaning N.heard JMAX lines ends stopped given.old v (view pass.old) first fired.old →
        HasDoneSome U.meaning N.heard JMAX (lines ++ line_of U.meaning call ∷ []) (ends ++ result.end ∷ [])
        (stopped || is_stopped result.end) given.new v (view pass.new) first fired.new }
    ensures known { (stopped || is_stopped result.end) ≡ false → KnowsGiven given.new (view pass.new) }
    ensures back { IsUnheard N.heard N.number result.back }
{
    if stopped {
        skip(call)
    } else {
        do_line(rt, alloc, shared, pass, gate, call, given, fired)
    }
}

/// Does the lines of a client, up to the first that is stopped.
pub(crate) fn do_lines<U: LinkedUnit, N: Notify, G: Gate, R: Wait, const JMAX: usize>(
    rt: &R,
    alloc: Global,
    shared: &Shared<U, N, JMAX>,
    pass: &mut Pass<U, N, JMAX>,
    gate: &G,
    hasher: NameHasher,
    calls: Vec<ClientCall<U, N>>,
    client: &mut ClientEnd<N>,
    fired: &mut FiredList<N>,
)
    requires ready { IsReady (turn_id shared.now) pass.old }
    requires free { IsFree U.meaning (view pass.old) }
    requires can { All (CanCall U.meaning N.heard N.number) calls.items }
    requires posts { post_count shared.now ≡ POSTS }
    requires room { IsEmpty (length calls.items) client.old }
    ensures ready { IsReady (turn_id shared.now) pass.new }
    ensures free { IsFree U.meaning (view pass.new) }
    ensures done { HasDoneAll U.meaning N.heard JMAX (map (line_of U.meaning) calls.items) client.new.lines.items
        (view pass.old) (view pass.new) fired.old fired.new }
    ensures unlodged { AreUnheard N.heard N.number client.new.unlodged.items }
{
    let mut given = GivenNames::new(alloc, hasher);
    let mut stopped = false;
    for call in calls {
        let done = do_or_skip(
            rt, alloc, shared, pass, gate, stopped, call, &mut given, fired,
        );
        stopped = is_either(stopped, is_stopped(&done.end));
        client.add(done);
    }
}
