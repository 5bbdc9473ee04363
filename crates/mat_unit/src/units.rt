ghost use Rattle.std.specs.Prelude.{◌≡◌, ◌<◌, ◌≤◌, length, option_map, slice_get, OnOk};
ghost use Rattle.orc_ids.specs.declared.limits.TheConstants.{UNIT_LIMIT};
ghost use Rattle.session_model.specs.Lists.{changed_at};
ghost use Rattle.session_model.specs.declared.rows.Job.TheVariants.{Start, Finish};
ghost use Rattle.mat_unit.specs.Changes.{without_name, listed, started, finishing, placed, linking, based, waiting, linked, done, failed, removed, let_go};
ghost use Rattle.mat_unit.specs.Jobs.{without_jobs_of, AreUnits};
ghost use Rattle.mat_unit.specs.Roster.{nothing, added, held, with_job, taken, CanStart, CanFinish};

use crate::jobs::Jobs;
use crate::unit::Unit;
use orc_ids::{DylibId, Items, QueryId, SeatNo, UnitId};
use session_model::{Job, Matches, UnitPhase};
use std::alloc::{AllocError, Global};
use std::collections::LinkedList;
use std::marker::Model;

/// The units of a session, and the jobs that are listed.
#[derive(Drop)]
pub struct Units<U> {
    units: Vec<Unit<U>>,
    jobs: Jobs,
    /// How many units a seat holds.
    held: u32,
    /// For how many more units there is room, with their two jobs.
    spare: u32,
}

impl<U> Model for Units<U> {
    ghost use Rattle.std.specs.Prelude.{vec_capacity};
    ghost use Rattle.mat_unit.specs.Kept.{IsKept};
    ghost use Rattle.mat_unit.specs.Roster.{Roster};

    ghost Value = { Roster U };

    ghost view = { λ u. record { units = u.units.items; jobs = u.jobs.jobs; spare = u.spare } };

    ghost invariant = { λ u. IsKept u.units.items u.jobs (vec_capacity u.units) u.held u.spare };
}

impl<U> Units<U> {
    /// No units; takes no memory.
    pub fn new(alloc: Global) -> Units<U>
        ensures { result ≡ nothing }
    {
        Units {
            units: Vec::new(alloc),
            jobs: Jobs::new(alloc),
            held: 0,
            spare: 0,
        }
    }

    /// How many units there are.
    pub fn len(&self) -> usize
        ensures { result ≡ length self.now.units }
    {
        self.units.as_slice().len()
    }

    /// The unit, where it is one of those.
    pub fn get(&self, u: UnitId) -> Option<&Unit<U>>
        ensures { option_map (λ x. x.now) result ≡ slice_get self.now.units u.0 }
    {
        self.units.as_slice().get(u.0 as usize)
    }

    /// How many units a seat holds.
    pub fn held(&self) -> u32
        ensures { result ≡ held self.now.units }
    {
        self.held
    }

    /// Makes the room for one more unit, and for its two jobs.
    pub fn room(&mut self) -> Result<(), AllocError>
        ensures room { OnOk result (0 < self.new.spare) }
        ensures units { self.new.units ≡ self.old.units }
        ensures jobs { self.new.jobs ≡ self.old.jobs }
        ensures spare { self.old.spare ≤ self.new.spare }
    {
        if self.spare > 0 {
            return Ok(());
        }
        self.units.reserve(1)?;
        self.jobs.room(2 * self.units.as_slice().len() + 2)?;
        self.spare = 1;
        Ok(())
    }

    /// Adds the next unit, which no lookup has asked for; takes no memory.
    pub fn add(&mut self, unit: U, dylib: DylibId, live: Items<bool>) -> UnitId
        requires room { 0 < self.old.spare }
        requires few { length self.old.units < UNIT_LIMIT }
        ensures number { result.0 ≡ length self.old.units }
        ensures added { self.new ≡ added unit dylib live self.old }
    {
        let u = UnitId(self.units.as_slice().len() as u32);
        self.units.push_reserved(Unit::new(unit, dylib, live));
        self.jobs.add_unit();
        self.spare -= 1;
        u
    }

    /// The name that the unit offers at `k` isn't its own any longer, where it offers one there.
    pub fn lose_name(&mut self, u: UnitId, k: u32)
        requires { u.0 < length self.old.units }
        ensures { self.new ≡ record self.old { units = changed_at u.0 (without_name k) self.old.units } }
    {
        let alloc = *self.units.allocator();
        self.units[u.0 as usize].lose_name(alloc, k);
    }

    /// A lookup asks for the unit: its job Start is listed.
    pub fn list(&mut self, u: UnitId)
        requires { CanStart self.old u }
        ensures { self.new ≡ with_job u listed (Start u) self.old }
    {
        self.units[u.0 as usize].list();
        self.jobs.push(Job::Start(u));
    }

    /// The oldest job, which stays listed.
    pub fn first(&self) -> Option<Job>
        ensures { result ≡ slice_get self.now.jobs 0 }
    {
        self.jobs.first()
    }

    /// The seat takes the oldest job, the unit's Start.
    pub fn start(&mut self, u: UnitId, s: SeatNo)
        requires { u.0 < length self.old.units }
        ensures { self.new ≡ taken u (started s) self.old }
    {
        self.jobs.pop();
        let unit = &mut self.units[u.0 as usize];
        self.held += !unit.is_held() as u32;
        unit.start(s);
    }

    /// The seat takes the oldest job, the unit's Finish, with its bindings if its externals were found.
    pub fn finish(&mut self, u: UnitId, s: SeatNo, bound: Option<Matches>)
        requires { u.0 < length self.old.units }
        ensures { self.new ≡ taken u (finishing s bound) self.old }
    {
        self.jobs.pop();
        let unit = &mut self.units[u.0 as usize];
        self.held += !unit.is_held() as u32;
        unit.finish(s, bound);
    }

    /// The unit has a place in memory.
    pub fn place(&mut self, u: UnitId, base: u64)
        requires { u.0 < length self.old.units }
        ensures { self.new ≡ record self.old { units = changed_at u.0 (placed base) self.old.units } }
    {
        self.units[u.0 as usize].place(base);
    }

    /// The unit's instances have addresses.
    pub fn resolve(&mut self, u: UnitId)
        requires { u.0 < length self.old.units }
        ensures { self.new ≡ record self.old { units = changed_at u.0 linking self.old.units } }
    {
        self.units[u.0 as usize].phase = UnitPhase::Linking;
    }

    /// An alias takes its target's address.
    pub fn bind(&mut self, u: UnitId, base: u64)
        requires { u.0 < length self.old.units }
        ensures { self.new ≡ record self.old { units = changed_at u.0 (based base) self.old.units } }
    {
        self.units[u.0 as usize].base = Some(base);
    }

    /// The unit waits for its link query, and no seat holds it.
    pub fn wait(&mut self, u: UnitId, query: QueryId)
        requires { u.0 < length self.old.units }
        ensures { self.new ≡ record self.old { units = changed_at u.0 (waiting query) self.old.units } }
    {
        let unit = &mut self.units[u.0 as usize];
        self.held -= unit.is_held() as u32;
        unit.wait(query);
    }

    /// The unit's externals are settled: its job Finish is listed.
    pub fn link(&mut self, u: UnitId)
        requires { CanFinish self.old u }
        ensures { self.new ≡ with_job u linked (Finish u) self.old }
    {
        self.units[u.0 as usize].link();
        self.jobs.push(Job::Finish(u));
    }

    /// The unit's bytes are in memory, and no seat holds it.
    pub fn done(&mut self, u: UnitId)
        requires { u.0 < length self.old.units }
        ensures { self.new ≡ record self.old { units = changed_at u.0 done self.old.units } }
    {
        let unit = &mut self.units[u.0 as usize];
        self.held -= unit.is_held() as u32;
        unit.complete();
    }

    /// The unit is given up, and no seat holds it.
    pub fn fail(&mut self, u: UnitId)
        requires { u.0 < length self.old.units }
        ensures { self.new ≡ record self.old { units = changed_at u.0 failed self.old.units } }
    {
        let unit = &mut self.units[u.0 as usize];
        self.held -= unit.is_held() as u32;
        unit.fail();
    }

    /// The unit is removed; a seat that holds it holds it until it is told.
    pub fn remove(&mut self, u: UnitId)
        requires { u.0 < length self.old.units }
        ensures { self.new ≡ record self.old { units = changed_at u.0 removed self.old.units } }
    {
        self.units[u.0 as usize].remove();
    }

    /// The seat no longer holds the unit, if it did.
    pub fn let_go(&mut self, u: UnitId, s: SeatNo)
        requires { u.0 < length self.old.units }
        ensures { self.new ≡ record self.old { units = changed_at u.0 (let_go s) self.old.units } }
    {
        let unit = &mut self.units[u.0 as usize];
        self.held -= unit.is_held_by(s) as u32;
        unit.let_go(s);
    }

    /// Drops the listed jobs of some units, in the time of one walk over each list.
    pub fn drop_jobs(&mut self, gone: &LinkedList<UnitId>)
        requires { AreUnits (length self.old.units) gone.now }
        ensures { self.new ≡ record self.old { jobs = without_jobs_of gone.now self.old.jobs } }
    {
        self.jobs.drop_of(gone);
    }
}
