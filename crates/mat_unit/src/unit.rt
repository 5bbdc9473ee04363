ghost use Rattle.std.specs.Prelude.{◌≡◌, false};
ghost use Rattle.session_model.specs.Lists.{changed_at};
ghost use Rattle.mat_unit.specs.Changes.{fresh, without_name, listed, started, finishing, placed, linking, based, waiting, linked, done, failed, removed, let_go, is_held, is_held_by};

use orc_ids::{DylibId, Items, QueryId, SeatNo};
use session_model::{Matches, UnitPhase};
use std::alloc::Global;
use std::mem::replace;

/// A unit of a session, as far as it has come.
#[derive(Drop)]
pub struct Unit<U> {
    /// What was handed in.
    pub unit: U,
    /// Where it was defined.
    pub dylib: DylibId,
    /// Which of its offered names are its own.
    pub live: Items<bool>,
    pub phase: UnitPhase,
    /// The seat that holds it.
    pub seat: Option<u32>,
    /// Where it is placed; of an alias, its target's address.
    pub base: Option<u64>,
    /// Its link query.
    pub query: Option<u32>,
    /// Its bindings.
    pub bound: Option<Matches>,
    /// The room for its job Start was made and not used.
    pub can_start: bool,
    /// The room for its job Finish was made and not used.
    pub can_finish: bool,
}

impl<U> Unit<U> {
    /// A unit that no lookup has asked for.
    pub(crate) fn new(unit: U, dylib: DylibId, live: Items<bool>) -> Unit<U>
        ensures { result ≡ fresh unit dylib live }
    {
        Unit {
            unit,
            dylib,
            live,
            phase: UnitPhase::Unclaimed,
            seat: None,
            base: None,
            query: None,
            bound: None,
            can_start: true,
            can_finish: true,
        }
    }

    /// The name that it offers at `k` isn't its own any longer.
    pub(crate) fn lose_name(&mut self, alloc: Global, k: u32)
        ensures { self.new ≡ without_name k self.old }
    {
        let mut live = replace(&mut self.live, Items::new(alloc)).into_vec();
        clear_flag(&mut live, k as usize);
        self.live = Items::from_vec(live);
    }

    /// Its job Start is listed.
    pub(crate) fn list(&mut self)
        ensures { self.new ≡ listed self.old }
    {
        self.phase = UnitPhase::Listed;
        self.can_start = false;
    }

    /// The seat took its job Start.
    pub(crate) fn start(&mut self, s: SeatNo)
        ensures { self.new ≡ started s self.old }
    {
        self.phase = UnitPhase::Started;
        self.seat = Some(s.0);
    }

    /// The seat took its job Finish, with its bindings if its externals were found.
    pub(crate) fn finish(&mut self, s: SeatNo, bound: Option<Matches>)
        ensures { self.new ≡ finishing s bound self.old }
    {
        self.phase = UnitPhase::Finishing;
        self.seat = Some(s.0);
        self.bound = bound;
    }

    /// It has a place in memory.
    pub(crate) fn place(&mut self, base: u64)
        ensures { self.new ≡ placed base self.old }
    {
        self.phase = UnitPhase::Placed;
        self.base = Some(base);
    }

    /// It waits for its link query.
    pub(crate) fn wait(&mut self, query: QueryId)
        ensures { self.new ≡ waiting query self.old }
    {
        self.phase = UnitPhase::Waiting;
        self.seat = None;
        self.query = Some(query.0);
    }

    /// Its job Finish is listed.
    pub(crate) fn link(&mut self)
        ensures { self.new ≡ linked self.old }
    {
        self.phase = UnitPhase::Linked;
        self.can_finish = false;
    }

    /// Its bytes are in memory.
    pub(crate) fn complete(&mut self)
        ensures { self.new ≡ done self.old }
    {
        self.phase = UnitPhase::Done;
        self.seat = None;
    }

    /// It is given up.
    pub(crate) fn fail(&mut self)
        ensures { self.new ≡ failed self.old }
    {
        self.phase = UnitPhase::Failed;
        self.seat = None;
        self.base = None;
    }

    /// It is removed; who holds it holds it still.
    pub(crate) fn remove(&mut self)
        ensures { self.new ≡ removed self.old }
    {
        self.phase = UnitPhase::Defunct;
        self.base = None;
    }

    /// The seat doesn't hold it.
    pub(crate) fn let_go(&mut self, s: SeatNo)
        ensures { self.new ≡ let_go s self.old }
    {
        if self.is_held_by(s) {
            self.seat = None;
        }
    }

    /// Whether a seat holds it.
    pub(crate) fn is_held(&self) -> bool
        ensures { result ≡ is_held self.now }
    {
        self.seat.is_some()
    }

    /// Whether this seat holds it.
    pub(crate) fn is_held_by(&self, s: SeatNo) -> bool
        ensures { result ≡ is_held_by s self.now }
    {
        self.seat == Some(s.0)
    }
}

/// The flag at `k` is false, where there is one.
fn clear_flag(flags: &mut Vec<bool>, k: usize)
    ensures { flags.new.items ≡ changed_at k (λ flag. false) flags.old.items }
{
    if let Some(flag) = flags.get_mut(k) {
        *flag = false;
    }
}
