//! The client: it looks the entry up, and copies the memory.
ghost use Rattle.std.specs.Prelude.{◌≡◌};
ghost use Rattle.turn_lock.specs.Handles.{view, turn_id, IsReady};
ghost use Rattle.link_worker.specs.Looks.{end_stopped};
ghost use Rattle.link_worker.specs.Works.{IsFree};
ghost use Rattle.linked_program.specs.Clients.{IsClientOf, LookedUp, found_in};

use code_memory::Image;
use link_worker::{LinkedUnit, Looked, copy_memory, lookup};
use notifiers::FiredList;
use orc_ids::{DylibId, Level, NameId, OrderItem, Scope, Stop, Wanted};
use orc_io::{Gate, Note};
use session_model::{LookEnd, Matches};
use shared_session::{Pass, Shared};
use std::alloc::Global;
use std::sync::Wait;

/// How the client's lookup ended, and where it found the entry the memory at that time.
#[derive(Drop)]
pub(crate) struct ClientEnd {
    pub(crate) end: LookEnd,
    pub(crate) memory: Option<Image>,
}

/// Looks the entry up at Ready, among all names of the one dylib.
fn look_up<U: LinkedUnit, G: Gate, R: Wait, const JMAX: usize>(
    rt: &R,
    alloc: Global,
    shared: &Shared<U, Note, JMAX>,
    pass: &mut Pass<U, Note, JMAX>,
    gate: &G,
    entry: NameId,
) -> LookEnd
    requires ready { IsReady (turn_id shared.now) pass.old }
    requires free { IsFree U.meaning (view pass.old) }
    ensures ready { IsReady (turn_id shared.now) pass.new }
    ensures free { IsFree U.meaning (view pass.new) }
    ensures looked { LookedUp U.meaning JMAX entry (view pass.old) (view pass.new) result }
{
    let order = [OrderItem {
        dylib: DylibId(0),
        scope: Scope::All,
    }];
    let wanted = [Wanted {
        name: entry,
        weak: false,
    }];
    let level = Level::Ready;
    let mut fired = FiredList::new();
    let Looked { end, back } = lookup(
        rt, alloc, shared, pass, &order, &wanted, level, None, gate, &mut fired,
    );
    if let Some(armed) = back {
        let _object = armed.back();
    }
    end
}

/// What a stop makes of a lookup that had found the entry.
fn end_of(stop: Stop) -> LookEnd
    ensures { result ≡ end_stopped stop }
{
    match stop {
        Stop::JournalFull(len) => LookEnd::JournalFull(len),
        Stop::NoMemory => LookEnd::NoMemory,
    }
}

/// The matches of a lookup that was found, or how else it ended.
fn found_in(end: LookEnd) -> Result<Matches, LookEnd>
    ensures { result ≡ found_in end }
{
    match end {
        LookEnd::Found(matches) => Ok(matches),
        LookEnd::Failed(i) => Err(LookEnd::Failed(i)),
        LookEnd::InError(i) => Err(LookEnd::InError(i)),
        LookEnd::Missing(name) => Err(LookEnd::Missing(name)),
        LookEnd::NoDylib(d) => Err(LookEnd::NoDylib(d)),
        LookEnd::JournalFull(len) => Err(LookEnd::JournalFull(len)),
        LookEnd::NoMemory => Err(LookEnd::NoMemory),
    }
}

/// Looks the entry up, and copies the memory where it was found.
pub(crate) fn run_client<U: LinkedUnit, G: Gate, R: Wait, const JMAX: usize>(
    rt: &R,
    alloc: Global,
    shared: &Shared<U, Note, JMAX>,
    pass: &mut Pass<U, Note, JMAX>,
    gate: &G,
    entry: NameId,
) -> ClientEnd
    requires ready { IsReady (turn_id shared.now) pass.old }
    requires free { IsFree U.meaning (view pass.old) }
    ensures ready { IsReady (turn_id shared.now) pass.new }
    ensures free { IsFree U.meaning (view pass.new) }
    ensures client { IsClientOf U.meaning JMAX entry (view pass.old) (view pass.new) result }
{
    match found_in(look_up(rt, alloc, shared, pass, gate, entry)) {
        Ok(matches) => match copy_memory(rt, shared, pass) {
            Ok(image) => ClientEnd {
                end: LookEnd::Found(matches),
                memory: Some(image),
            },
            Err(stop) => ClientEnd {
                end: end_of(stop),
                memory: None,
            },
        },
        Err(end) => ClientEnd { end, memory: None },
    }
}
