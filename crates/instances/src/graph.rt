ghost use Rattle.std.specs.Prelude.{◌≡◌, ◌<◌, ◌+◌, ◌≤◌, ◌++◌, [], ℕ, All, true, map, length, slice_get, Some, None, IfOk, OnOk, OnErr, option_and_then, flat_map, IsPermutation, if◌then◌else◌};
ghost use Rattle.orc_ids.specs.declared.ids.UnitId.{UnitId};
ghost use Rattle.orc_ids.specs.declared.limits.TheConstants.{INSTANCE_LIMIT, UNIT_LIMIT};
ghost use Rattle.session_model.specs.Lists.{numbered};
ghost use Rattle.session_model.specs.Plain.{is_unsearched, is_owned_at, emitted_at, own_rows};
ghost use Rattle.session_model.specs.Change.{claimed_row, emitted_row, hits_failed};
ghost use Rattle.session_model.specs.Reach.{is_ready};
ghost use Rattle.instances.specs.Rows.{addressed_row};
ghost use Rattle.instances.specs.Spans.{IsSpan};
ghost use Rattle.instances.specs.Table.{fresh_rows, replaced_row, AreChanged};
ghost use Rattle.instances.specs.Graph.{HasSameRooms, Tells, NoneEmitted, OffersBelow};
ghost use Rattle.instances.specs.Removal.{removed_rows};

use crate::failure::fail_hits;
use crate::inst_set::InstSet;
use crate::removal::remove_units;
use crate::roots::{add_all_roots, add_roots_of};
use crate::{Instances, Span};
use dep_groups::Frontier;
use orc_ids::{DylibId, Group, InstId, InstList, NameId, SymFlags, UnitId};
use session_laws::{hit_is_tested, ready_is_tested};
use session_model::{InstRow, UnitKind};
use std::alloc::{AllocError, Global};
use std::collections::LinkedList;
use std::marker::Model;

/// The instances of a session, by number, with their readiness.
#[derive(Drop)]
pub struct InstanceGraph {
    instances: Instances,
    frontier: Frontier,
    changed: InstSet,
    /// Where a failure begins, while one is under way.
    roots: InstSet,
    /// For how many instances there is room in all.
    places: usize,
}

impl Model for InstanceGraph {
    ghost use Rattle.instances.specs.Graph.{Graph};

    ghost Value = { Graph };

    ghost use Rattle.instances.specs.Tied.{IsKept};

    ghost view = { λ g. record { rows = g.instances.rows; units = g.instances.units; changed = g.changed.items; places = g.places; spare_units = g.instances.spare_units } };

    ghost invariant = { λ g. IsKept g.instances g.frontier g.changed g.roots g.places };
}

impl InstanceGraph {
    /// No instances; takes no memory.
    pub fn new(alloc: Global) -> InstanceGraph
        ensures rows { result.rows ≡ [] }
        ensures units { result.units ≡ 0 }
        ensures changed { result.changed ≡ [] }
    {
        InstanceGraph {
            instances: Instances::new(alloc),
            frontier: Frontier::new(alloc),
            changed: InstSet::new(alloc),
            roots: InstSet::new(alloc),
            places: 0,
        }
    }

    /// The instances, by number.
    pub fn rows(&self) -> &[InstRow]
        ensures { result.now ≡ self.now.rows }
    {
        self.instances.rows()
    }

    /// The instances that changed.
    pub fn changed(&self) -> &[InstId]
        ensures { result.now ≡ self.now.changed }
    {
        self.changed.as_slice()
    }

    /// What changed is known. It costs as many as did.
    pub fn clear(&mut self)
        ensures { self.new ≡ record self.old { changed = [] } }
    {
        self.changed.clear();
    }

    /// Makes the room for one more unit, with so many instances.
    pub fn room(&mut self, count: usize) -> Result<(), AllocError>
        ensures rows { self.new.rows ≡ self.old.rows }
        ensures units { self.new.units ≡ self.old.units }
        ensures changed { self.new.changed ≡ self.old.changed }
        ensures places { OnOk result (length self.new.rows + count ≤ self.new.places) }
        ensures spare_units { OnOk result (0 < self.new.spare_units) }
        ensures kept { self.old.places ≤ self.new.places }
    {
        let Some(places) = self.instances.rows().len().checked_add(count) else {
            return Err(AllocError);
        };
        self.instances.room(count)?;
        self.frontier.room(places)?;
        self.changed.room(places)?;
        self.roots.room(places)?;
        self.places = self.places.max(places);
        Ok(())
    }

    /// Adds the next unit, with an instance for each offered name that stays, which no lookup has asked
    /// for; takes no memory.
    pub fn define(&mut self, d: DylibId, offers: &[(NameId, SymFlags)], live: &[bool])
        requires room { length self.old.rows + length offers.now ≤ self.old.places }
        requires unit_room { 0 < self.old.spare_units }
        requires few { length self.old.rows + length offers.now ≤ INSTANCE_LIMIT }
        requires units { self.old.units < UNIT_LIMIT }
        requires flags { length live.now ≡ length offers.now }
        ensures rows { self.new.rows ≡ self.old.rows ++ fresh_rows d.0 self.old.units 0 offers.now live.now }
        ensures units { self.new.units ≡ self.old.units + 1 }
        ensures places { self.new.places ≡ self.old.places }
        ensures changed { self.new.changed ≡ self.old.changed }
        ensures tells { Tells self.old self.new }
    {
        // for its law
        ready_is_tested();
        self.instances.define(d, offers, live);
    }

    /// None of these instances is present any longer, since another one took its name; takes no memory.
    pub fn replace(&mut self, gone: &[InstId])
        ensures rows { AreChanged (replaced_row gone.now) self.old.rows self.new.rows }
        ensures rooms { HasSameRooms self.old self.new }
        ensures tells { Tells self.old self.new }
    {
        // for its law
        ready_is_tested();
        self.instances.replace(gone);
        self.changed.add_all(gone);
    }

    /// The unit of an instance that no lookup has asked for.
    pub fn unsearched_unit(&self, i: InstId) -> Option<UnitId>
        ensures { result ≡ option_and_then (λ r. if is_unsearched r.phase then Some r.unit else None) (slice_get self.now.rows i.0) }
    {
        self.instances.unsearched_unit(i)
    }

    /// A lookup asks for the unit: its instances become Claimed; takes no memory.
    pub fn claim(&mut self, u: UnitId)
        requires { u.0 < self.old.units }
        ensures graph { self.new ≡ record self.old { rows = map (claimed_row u.0) self.old.rows } }
        ensures tells { Tells self.old self.new }
    {
        // for its law
        ready_is_tested();
        self.instances.claim(u);
    }

    /// Each of the unit's instances gets its address, with the unit at this base; takes no memory.
    pub fn resolve<U: UnitKind>(&mut self, u: UnitId, unit: &U, base: u64)
        requires there { u.0 < self.old.units }
        requires offers { OffersBelow u.0 (length (U.meaning unit.now).offers) self.old.rows }
        requires unemitted { NoneEmitted u.0 self.old.rows }
        ensures rows { self.new.rows ≡ map (addressed_row u.0 (λ k. (U.meaning unit.now).address k base)) self.old.rows }
        ensures rooms { HasSameRooms self.old self.new }
        ensures tells { Tells self.old self.new }
    {
        // for its law
        ready_is_tested();
        let span = self.instances.span(u);
        self.instances.resolve(u, unit, base);
        self.changed.add_span(span);
    }

    /// Each of the unit's instances is Emitted, with the dependencies of its group. The members of a group
    /// share one list.
    pub fn emit(&mut self, u: UnitId, groups: &[Group]) -> Result<(), AllocError>
        requires there { u.0 < self.old.units }
        requires members { IsPermutation (flat_map (λ g. g.members) groups.now) (own_rows u.0 0 self.old.rows) }
        requires unemitted { NoneEmitted u.0 self.old.rows }
        ensures emitted { OnOk result (self.new.rows ≡ numbered (emitted_row u.0 groups.now) 0 self.old.rows) }
        ensures rooms { HasSameRooms self.old self.new }
        ensures tells { Tells self.old self.new }
        ensures err { OnErr result (self.new ≡ self.old) }
    {
        // for its law
        ready_is_tested();
        let span = self.instances.span(u);
        let prepared = self.instances.prepare(u, groups)?;
        self.frontier.emit(groups)?;
        self.instances.emit_prepared(u, prepared);
        self.changed.add_span(span);
        self.changed.add_all(self.frontier.told());
        Ok(())
    }

    /// The unit's instances fail, with all that reaches one of them and isn't ready; takes no memory.
    pub fn fail(&mut self, u: UnitId)
        requires there { u.0 < self.old.units }
        requires unemitted { NoneEmitted u.0 self.old.rows }
        ensures rows { self.new.rows ≡ hits_failed (is_owned_at u.0 self.old.rows) self.old.rows }
        ensures rooms { HasSameRooms self.old self.new }
        ensures tells { Tells self.old self.new }
    {
        // for their laws
        ready_is_tested();
        hit_is_tested();
        self.roots.clear();
        add_roots_of(&mut self.roots, &self.instances, &self.frontier, u);
        fail_hits(
            &mut self.instances,
            &mut self.frontier,
            &mut self.changed,
            self.roots.as_slice(),
        );
    }

    /// The units are removed: what reaches one of their instances that isn't ready, and isn't ready itself,
    /// fails, and none of their instances is present any longer; takes no memory.
    pub fn remove(&mut self, gone: &LinkedList<UnitId>)
        requires { All (λ (u : UnitId). u.0 < self.old.units) gone.now }
        ensures rows { self.new.rows ≡ removed_rows gone.now self.old.rows }
        ensures rooms { HasSameRooms self.old self.new }
        ensures tells { Tells self.old self.new }
    {
        // for their laws
        ready_is_tested();
        hit_is_tested();
        self.roots.clear();
        add_all_roots(&mut self.roots, &self.instances, &self.frontier, gone);
        fail_hits(
            &mut self.instances,
            &mut self.frontier,
            &mut self.changed,
            self.roots.as_slice(),
        );
        remove_units(&mut self.instances, &mut self.changed, gone);
    }

    /// Whether the instance and all that it reaches is emitted: one look at a flag.
    pub(crate) fn is_ready(&self, i: InstId) -> bool
        ensures exact { result ≡ is_ready self.now.rows i.0 }
        ensures emitted { result ≡ true → emitted_at self.now.rows i.0 ≡ true }
    {
        // for its law
        ready_is_tested();
        self.frontier.is_ready(i)
    }

    /// Where the unit's instances stand.
    pub fn span(&self, u: UnitId) -> Span
        requires { u.0 < self.now.units }
        ensures span { IsSpan self.now.rows u.0 result.first result.count }
        ensures few { length self.now.rows ≤ INSTANCE_LIMIT }
    {
        self.instances.span(u)
    }

    /// The unit's present instances, in order.
    pub fn own(&self, u: UnitId) -> Result<InstList, AllocError>
        requires { u.0 < self.now.units }
        ensures { IfOk result (λ own. own ≡ own_rows u.0 0 self.now.rows) }
    {
        self.instances.own(u)
    }
}
