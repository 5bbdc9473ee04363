//! Units that are defined.

ghost use Rattle.std.specs.Prelude.{◌≡◌, ◌+◌, ◌≤◌, ◌<◌, true, None, Some, Bool, length, slice_get, count_by, IsSome, IfOk, OnOk, IfErr, OnErr};
ghost use Rattle.orc_ids.specs.declared.limits.TheConstants.{INSTANCE_LIMIT, UNIT_LIMIT};
ghost use Rattle.session_model.specs.Plain.{Plain, is_tracker_of};
ghost use Rattle.session_model.specs.declared.rows.InstRow.{InstRow};
ghost use Rattle.session_laws.specs.Sound.{IsSound};
ghost use Rattle.instances.specs.Graph.{Tells};
ghost use Rattle.jit_dylib.specs.Laws.{HasOneRowInEach};
ghost use Rattle.jit_dylib.specs.Rows.{first_clash, IsRefusedBy};
ghost use Rattle.jit_dylib.specs.Shelf.{table_of};
ghost use Rattle.tracker.specs.Owners.{owned_by, with_unit};
ghost use Rattle.session_parts.specs.Defined.{after_define, exchanged, first_duplicate, kept_count, unnamed, AreLost, AreOf, HasRoom, IsAdded, IsJudged, IsSame};
ghost use Rattle.session_parts.specs.Parts.{AreParts};

use crate::parts::Parts;
use instances::{InstanceGraph, tells_on};
use jit_dylib::{DefineError, Defined, shelf_defines, shelf_judges};
use mat_unit::Units;
use orc_ids::{DylibId, InstId, NameId, SymFlags, TrackId, UnitId};
use orc_io::Notify;
use session_model::{InstRow, UnitKind};
use std::alloc::{AllocError, Global};

/// A unit that was defined: its number, its first instance and how many it has.
#[derive(Clone, Copy)]
pub struct NewUnit {
    pub unit: UnitId,
    pub first: InstId,
    pub count: u32,
}

/// Why a unit wasn't defined, and the unit.
#[derive(Drop)]
pub struct Undefined<U> {
    pub why: DefineError,
    pub unit: U,
}

/// The names that a unit offers, and what became of them.
#[derive(Drop)]
struct Judged {
    offers: Vec<(NameId, SymFlags)>,
    names: Defined,
}

/// The names that the unit offers, with their flags.
fn offers_of<U: UnitKind>(alloc: Global, unit: &U) -> Result<Vec<(NameId, SymFlags)>, AllocError>
    ensures { IfOk result (λ offers. offers.items ≡ (U.meaning unit.now).offers) }
{
    let count = unit.count();
    let mut offers = Vec::with_capacity(alloc, count as usize)?;
    for k in 0..count {
        offers.push(unit.offer(k))?;
    }
    Ok(offers)
}

/// The unit of a replaced instance no longer offers the name.
fn lose_name<U: UnitKind>(units: &mut Units<U>, rows: &[InstRow], i: InstId)
    requires { (r : InstRow) → slice_get rows.now i.0 ≡ Some r → r.unit.0 < length units.old.units }
    ensures { units.new ≡ record units.old { units = unnamed rows.now i units.old.units } }
{
    if let Some(row) = rows.get(i.0 as usize) {
        units.lose_name(row.unit, row.offer);
    }
}

/// The units of the replaced instances no longer offer the names.
fn lose_names<U: UnitKind>(units: &mut Units<U>, rows: &[InstRow], replaced: &[InstId])
    requires { AreOf rows.now replaced.now (length units.old.units) }
    ensures lost { AreLost rows.now replaced.now units.old.units units.new.units }
    ensures rest { units.new ≡ record units.old { units = units.new.units } }
{
    for i in replaced {
        lose_name(units, rows, *i);
    }
}

/// The replaced instances go, and those of the names that stay come: so many.
fn exchange(
    graph: &mut InstanceGraph,
    d: DylibId,
    offers: &[(NameId, SymFlags)],
    live: &[bool],
    replaced: &[InstId],
) -> u32
    requires room { length graph.old.rows + length offers.now ≤ graph.old.places }
    requires unit_room { 0 < graph.old.spare_units }
    requires few { length graph.old.rows + length offers.now ≤ INSTANCE_LIMIT }
    requires units { graph.old.units < UNIT_LIMIT }
    requires flags { length live.now ≡ length offers.now }
    ensures rows { graph.new.rows ≡ exchanged d.0 graph.old.units offers.now live.now replaced.now graph.old.rows }
    ensures units { graph.new.units ≡ graph.old.units + 1 }
    ensures count { result ≡ count_by (λ (b : Bool). b) live.now }
    ensures tells { Tells graph.old graph.new }
{
    // for its law
    tells_on();
    let before = graph.rows().len();
    graph.replace(replaced);
    graph.define(d, offers, live);
    (graph.rows().len() - before) as u32
}

impl<U: UnitKind, N: Notify> Parts<U, N> {
    /// Makes the room for the unit everywhere, and gives the names that it offers.
    fn make_room(&mut self, t: TrackId, unit: &U) -> Result<Vec<(NameId, SymFlags)>, AllocError>
        requires { IsSome (owned_by self.old.trackers t) }
        ensures same { IsSame self.old self.new }
        ensures room { IfOk result (λ offers. HasRoom self.new t (length offers.items)) }
        ensures offers { IfOk result (λ offers. offers.items ≡ (U.meaning unit.now).offers) }
    {
        let offers = offers_of(self.alloc, unit)?;
        self.units.room()?;
        self.trackers.room(t)?;
        self.graph.room(offers.len())?;
        Ok(offers)
    }

    /// Makes the room for the unit everywhere, and judges its names: where none clashes, the dylib has them.
    fn judge(&mut self, d: DylibId, t: TrackId, unit: &U) -> Result<Judged, DefineError>
        requires tracker { IsSome (owned_by self.old.trackers t) }
        requires dylib { d.0 < length self.old.dylibs.dylibs }
        requires instances { length self.old.graph.rows + length (U.meaning unit.now).offers ≤ INSTANCE_LIMIT }
        ensures same { IsSame self.old (record self.new { dylibs = self.old.dylibs }) }
        ensures offers { IfOk result (λ x. x.offers.items ≡ (U.meaning unit.now).offers) }
        ensures room { IfOk result (λ x. HasRoom self.new t (length x.offers.items)) }
        ensures judged { IfOk result (λ x. IsJudged self.old.graph.rows d.0 (U.meaning unit.now).offers self.old.dylibs self.new.dylibs x.names.live x.names.replaced) }
        ensures accepted { OnOk result (first_clash self.old.graph.rows (table_of self.old.dylibs d.0) (U.meaning unit.now).offers ≡ None) }
        ensures refused { IfErr result (IsRefusedBy (first_clash self.old.graph.rows (table_of self.old.dylibs d.0) (U.meaning unit.now).offers)) }
        ensures err { OnErr result (self.new.dylibs ≡ self.old.dylibs) }
    {
        // for its law
        unit.known();
        let offers = self.make_room(t, unit)?;
        let rows = self.graph.rows();
        let first = InstId(rows.len() as u32);
        let names = self.dylibs.define(d, &offers, first, rows)?;
        // for its clause on the tables
        self.dylibs.len();
        Ok(Judged { offers, names })
    }

    /// Enters the unit in all parts, once its names were judged; takes no memory.
    fn enter(&mut self, d: DylibId, t: TrackId, unit: U, judged: Judged) -> NewUnit
        requires room { HasRoom self.old t (length judged.offers.items) }
        requires tracker { IsSome (owned_by self.old.trackers t) }
        requires flags { length judged.names.live ≡ length judged.offers.items }
        requires its { AreOf self.old.graph.rows judged.names.replaced (length self.old.units.units) }
        requires units { length self.old.units.units < UNIT_LIMIT }
        requires graph_units { self.old.graph.units < UNIT_LIMIT }
        requires instances { length self.old.graph.rows + length judged.offers.items ≤ INSTANCE_LIMIT }
        ensures rows { self.new.graph.rows ≡ exchanged d.0 self.old.graph.units judged.offers.items judged.names.live judged.names.replaced self.old.graph.rows }
        ensures graph_units { self.new.graph.units ≡ self.old.graph.units + 1 }
        ensures tells { Tells self.old.graph self.new.graph }
        ensures units { IsAdded self.old.graph.rows judged.names.replaced unit d judged.names.live self.old.units self.new.units }
        ensures owners { self.new.trackers ≡ with_unit self.old.trackers t result.unit }
        ensures rest { self.new ≡ record self.old { graph = self.new.graph; units = self.new.units; trackers = self.new.trackers } }
        ensures unit { result.unit.0 ≡ length self.old.units.units }
        ensures first { result.first.0 ≡ length self.old.graph.rows }
        ensures count { result.count ≡ count_by (λ (b : Bool). b) judged.names.live }
    {
        let Judged { offers, names } = judged;
        let Defined { live, replaced } = names;
        let first = InstId(self.graph.rows().len() as u32);
        lose_names(&mut self.units, self.graph.rows(), replaced.as_slice());
        let count = exchange(
            &mut self.graph,
            d,
            offers.as_slice(),
            live.as_slice(),
            replaced.as_slice(),
        );
        let unit = self.units.add(unit, d, live);
        self.trackers.add_unit(t, unit);
        NewUnit { unit, first, count }
    }

    /// There is one unit more, with an instance for each name that it keeps, in the place of those that it
    /// replaces; a refusal hands the unit back.
    pub fn define(&mut self, d: DylibId, t: TrackId, unit: U) -> Result<NewUnit, Undefined<U>>
        ghost m: { Plain }
        requires parts { AreParts U.meaning self.old m }
        requires sound { IsSound m }
        requires once { HasOneRowInEach m.rows }
        requires there { d.0 < length m.dylibs }
        requires tracker { is_tracker_of m d.0 t.0 ≡ true }
        requires units { length m.units < UNIT_LIMIT }
        requires instances { length m.rows + length (U.meaning unit).offers ≤ INSTANCE_LIMIT }
        ensures unit { IfOk result (λ x. x.unit.0 ≡ length m.units) }
        ensures first { IfOk result (λ x. x.first.0 ≡ length m.rows) }
        ensures count { IfOk result (λ x. x.count ≡ kept_count m.rows d.0 (U.meaning unit).offers) }
        ensures ok { OnOk result (AreParts U.meaning self.new (after_define d t (U.meaning unit) m)) }
        ensures accepted { OnOk result (first_duplicate m.rows d.0 (U.meaning unit).offers ≡ None) }
        ensures refused { IfErr result (λ x. IsRefusedBy (first_duplicate m.rows d.0 (U.meaning unit).offers) x.why) }
        ensures back { IfErr result (λ x. x.unit ≡ unit) }
        ensures err { OnErr result (AreParts U.meaning self.new m) }
        ensures unchanged { OnErr result (self.new.graph.changed ≡ self.old.graph.changed) }
        ensures tells { Tells self.old.graph self.new.graph }
        ensures rest { self.new ≡ record self.old { dylibs = self.new.dylibs; graph = self.new.graph; units = self.new.units; trackers = self.new.trackers } }
    {
        // for their laws
        shelf_judges();
        shelf_defines();
        match self.judge(d, t, &unit) {
            Ok(judged) => Ok(self.enter(d, t, unit, judged)),
            Err(why) => Err(Undefined { why, unit }),
        }
    }
}
