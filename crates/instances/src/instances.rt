ghost use Rattle.std.specs.Prelude.{◌≡◌, ◌<◌, ◌+◌, ◌≤◌, ◌++◌, [], ℕ, List, map, length, slice_get, Some, IfOk, OnOk, OnErr, true, option_and_then, if◌then◌else◌};
ghost use Rattle.orc_ids.specs.declared.limits.TheConstants.{INSTANCE_LIMIT, UNIT_LIMIT};
ghost use Rattle.orc_ids.specs.declared.groups.Group.{Group};
ghost use Rattle.session_model.specs.Lists.{numbered};
ghost use Rattle.session_model.specs.Plain.{is_unsearched, is_owned, own_rows};
ghost use Rattle.session_model.specs.Change.{claimed_row, emitted_row};
ghost use Rattle.session_model.specs.declared.rows.InstRow.{InstRow};
ghost use Rattle.instances.specs.Prepared.{IsPrepared};
ghost use Rattle.instances.specs.Rows.{addressed_row};
ghost use Rattle.instances.specs.Spans.{IsSpan};
ghost use Rattle.instances.specs.Table.{HasSameRooms, fresh_rows, removed_row, replaced_row, failed_row, AreChanged};

use crate::groups::{Prepared, deps_table};
use crate::row::is_unsearched;
use crate::rows::{
    claim_rows, emit_rows, fail_rows, own_in, push_rows, remove_rows, replace_rows, resolve_rows,
};
use crate::span::Span;
use orc_ids::{DylibId, Group, InstId, InstList, NameId, SymFlags, UnitId};
use session_model::{InstRow, UnitKind};
use std::alloc::{AllocError, Global};
use std::marker::Model;

/// The instances of a session, by number.
#[derive(Drop)]
pub struct Instances {
    alloc: Global,
    rows: Vec<InstRow>,
    spans: Vec<Span>,
}

impl Model for Instances {
    ghost use Rattle.std.specs.Prelude.{length, ◌-◌, vec_capacity};
    ghost use Rattle.instances.specs.Table.{Table};
    ghost use Rattle.instances.specs.Spans.{AreSpanned};

    ghost Value = { Table };

    ghost view = { λ t. record { rows = t.rows.items; units = length t.spans.items; spare = vec_capacity t.rows - length t.rows.items; spare_units = vec_capacity t.spans - length t.spans.items } };

    ghost invariant = { λ t. AreSpanned t.rows.items t.spans.items };
}

impl Instances {
    /// No instances; takes no memory.
    pub fn new(alloc: Global) -> Instances
        ensures rows { result.rows ≡ [] }
        ensures units { result.units ≡ 0 }
    {
        Instances {
            alloc,
            rows: Vec::new(alloc),
            spans: Vec::new(alloc),
        }
    }

    /// The instances, by number.
    pub fn rows(&self) -> &[InstRow]
        ensures { result.now ≡ self.now.rows }
    {
        self.rows.as_slice()
    }

    /// Makes the room for one more unit, with so many instances.
    pub fn room(&mut self, count: usize) -> Result<(), AllocError>
        ensures rows { self.new.rows ≡ self.old.rows }
        ensures units { self.new.units ≡ self.old.units }
        ensures spare { OnOk result (count ≤ self.new.spare) }
        ensures kept { self.old.spare ≤ self.new.spare }
        ensures spare_units { OnOk result (0 < self.new.spare_units) }
    {
        self.rows.reserve(count)?;
        self.spans.reserve(1)
    }

    /// Adds the next unit, with an instance for each offered name that stays, which no lookup has asked
    /// for; takes no memory.
    pub fn define(&mut self, d: DylibId, offers: &[(NameId, SymFlags)], live: &[bool])
        requires room { length offers.now ≤ self.old.spare }
        requires unit_room { 0 < self.old.spare_units }
        requires few { length self.old.rows + length offers.now ≤ INSTANCE_LIMIT }
        requires units { self.old.units < UNIT_LIMIT }
        requires flags { length live.now ≡ length offers.now }
        ensures rows { self.new.rows ≡ self.old.rows ++ fresh_rows d.0 self.old.units 0 offers.now live.now }
        ensures units { self.new.units ≡ self.old.units + 1 }
        ensures room { length self.new.rows + self.new.spare ≡ length self.old.rows + self.old.spare }
    {
        let u = UnitId(self.spans.as_slice().len() as u32);
        let first = self.rows.as_slice().len() as u32;
        push_rows(&mut self.rows, d, u, offers, live);
        let count = self.rows.as_slice().len() as u32 - first;
        self.spans.push_reserved(Span { first, count });
    }

    /// None of these instances is present any longer, since another one took its name; takes no memory.
    pub fn replace(&mut self, gone: &[InstId])
        ensures rows { AreChanged (replaced_row gone.now) self.old.rows self.new.rows }
        ensures rooms { HasSameRooms self.old self.new }
    {
        replace_rows(&mut self.rows, gone);
    }

    /// The unit of an instance that no lookup has asked for.
    pub fn unsearched_unit(&self, i: InstId) -> Option<UnitId>
        ensures { result ≡ option_and_then (λ r. if is_unsearched r.phase then Some r.unit else None) (slice_get self.now.rows i.0) }
    {
        let row = self.rows.get(i.0 as usize)?;
        is_unsearched(&row.phase).then_some(row.unit)
    }

    /// A lookup asks for the unit: its instances become Claimed; takes no memory.
    pub fn claim(&mut self, u: UnitId)
        requires { u.0 < self.old.units }
        ensures { self.new ≡ record self.old { rows = map (claimed_row u.0) self.old.rows } }
    {
        let span = self.spans[u.0 as usize];
        claim_rows(&mut self.rows, u, span);
    }

    /// Each of the unit's instances gets its address, with the unit at this base; takes no memory.
    pub fn resolve<U: UnitKind>(&mut self, u: UnitId, unit: &U, base: u64)
        requires there { u.0 < self.old.units }
        requires offers { (i : ℕ) (r : InstRow) → slice_get self.old.rows i ≡ Some r → is_owned u.0 r ≡ true → r.offer < length (U.meaning unit.now).offers }
        ensures { self.new ≡ record self.old { rows = map (addressed_row u.0 (λ k. (U.meaning unit.now).address k base)) self.old.rows } }
    {
        let span = self.spans[u.0 as usize];
        resolve_rows(&mut self.rows, u, span, unit, base);
    }

    /// Each of the unit's instances is Emitted, with the dependencies of its group. The members of a group
    /// share one list.
    pub fn emit(&mut self, u: UnitId, groups: &[Group]) -> Result<(), AllocError>
        requires { u.0 < self.old.units }
        ensures emitted { OnOk result (self.new ≡ record self.old { rows = numbered (emitted_row u.0 groups.now) 0 self.old.rows }) }
        ensures err { OnErr result (self.new ≡ self.old) }
    {
        let prepared = self.prepare(u, groups)?;
        self.emit_prepared(u, prepared);
        Ok(())
    }

    /// Takes the memory for an emission of the unit.
    pub fn prepare(&self, u: UnitId, groups: &[Group]) -> Result<Prepared, AllocError>
        requires { u.0 < self.now.units }
        ensures { IfOk result (λ prepared. IsPrepared self.now.rows u.0 groups.now prepared) }
    {
        let span = self.spans[u.0 as usize];
        let deps = deps_table(self.alloc, groups, span.first, span.count)?;
        Ok(Prepared {
            first: span.first,
            deps,
        })
    }

    /// Emits the unit with what was prepared; takes no memory.
    pub fn emit_prepared(&mut self, u: UnitId, prepared: Prepared)
        requires { (groups : List Group) × IsPrepared self.old.rows u.0 groups prepared }
        ensures { (groups : List Group) → IsPrepared self.old.rows u.0 groups prepared → self.new ≡ record self.old { rows = numbered (emitted_row u.0 groups) 0 self.old.rows } }
    {
        emit_rows(&mut self.rows, u, prepared.first, prepared.deps);
    }

    /// Each of these instances fails; takes no memory.
    pub fn fail(&mut self, hit: &[InstId])
        ensures rows { AreChanged (failed_row hit.now) self.old.rows self.new.rows }
        ensures rooms { HasSameRooms self.old self.new }
    {
        fail_rows(&mut self.rows, hit);
    }

    /// The unit is removed: none of its instances is present any longer; takes no memory.
    pub fn remove(&mut self, u: UnitId)
        requires { u.0 < self.old.units }
        ensures { self.new ≡ record self.old { rows = map (removed_row u.0) self.old.rows } }
    {
        let span = self.spans[u.0 as usize];
        remove_rows(&mut self.rows, u, span);
    }

    /// Where the unit's instances stand.
    pub fn span(&self, u: UnitId) -> Span
        requires { u.0 < self.now.units }
        ensures span { IsSpan self.now.rows u.0 result.first result.count }
        ensures few { length self.now.rows ≤ INSTANCE_LIMIT }
    {
        self.spans[u.0 as usize]
    }

    /// The unit's present instances, in order.
    pub fn own(&self, u: UnitId) -> Result<InstList, AllocError>
        requires { u.0 < self.now.units }
        ensures { IfOk result (λ own. own ≡ own_rows u.0 0 self.now.rows) }
    {
        own_in(self.alloc, &self.rows, u, self.spans[u.0 as usize])
    }
}
