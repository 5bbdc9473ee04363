//! Trackers that are removed, with all that they have.

ghost use Rattle.std.specs.Prelude.{◌≡◌, ◌+◌, ◌<◌, ◌≤◌, ◌&&◌, ◌==◌, ◌∷◌, [], All, true, length};
ghost use Rattle.orc_ids.specs.declared.ids.UnitId.{UnitId};
ghost use Rattle.orc_ids.specs.declared.limits.TheConstants.{INSTANCE_LIMIT};
ghost use Rattle.session_model.specs.Change.{removed};
ghost use Rattle.session_model.specs.Lists.{changed_at};
ghost use Rattle.session_model.specs.Plain.{Plain, has_tracker, tracker_dylib};
ghost use Rattle.instances.specs.Graph.{Tells};
ghost use Rattle.jit_dylib.specs.Laws.{HasOneRowInEach, IsTrackerOf};
ghost use Rattle.jit_dylib.specs.Shelf.{table_of, ChangesOnlyTable};
ghost use Rattle.mat_unit.specs.Changes as one;
ghost use Rattle.session_parts.specs.Parts.{AreParts};
ghost use Rattle.session_parts.specs.Removed.{goes, has_name, is_spanned, is_named, IsLeftBut, AreRanged, AreRemoved, AreFreed, AreSpent};

use crate::memory::free;
use crate::parts::Parts;
use code_memory::Space;
use generators::Generators;
use instances::{InstanceGraph, Span};
use jit_dylib::{Dylibs, shelf_drops};
use mat_unit::Units;
use orc_ids::{DylibId, GenId, InstId, TrackId, UnitId};
use orc_io::Notify;
use session_model::{InstRow, UnitKind};
use std::collections::LinkedList;

/// The row of the instance leaves the dylib's table.
fn drop_name(dylibs: &mut Dylibs, d: DylibId, rows: &[InstRow], i: u32)
    requires { d.0 < length dylibs.old.dylibs }
    ensures rows { IsLeftBut (λ name j. i == j && has_name rows.now name j) (table_of dylibs.old d.0) (table_of dylibs.new d.0) }
    ensures rest { ChangesOnlyTable d.0 dylibs.old dylibs.new }
{
    if let Some(row) = rows.get(i as usize) {
        dylibs.drop_rows(d, &[(row.name, InstId(i))]);
    }
}

/// The rows of the instances of a span leave the dylib's table.
fn drop_span(dylibs: &mut Dylibs, d: DylibId, rows: &[InstRow], span: Span)
    requires dylib { d.0 < length dylibs.old.dylibs }
    requires few { span.first + span.count ≤ INSTANCE_LIMIT }
    ensures rows { IsLeftBut (is_spanned span.first (span.first + span.count) rows.now) (table_of dylibs.old d.0) (table_of dylibs.new d.0) }
    ensures rest { ChangesOnlyTable d.0 dylibs.old dylibs.new }
{
    for i in span.first..span.first + span.count {
        drop_name(dylibs, d, rows, i);
    }
}

/// The rows of the unit's instances leave the dylib's table.
fn drop_names(dylibs: &mut Dylibs, d: DylibId, graph: &InstanceGraph, u: UnitId)
    requires dylib { d.0 < length dylibs.old.dylibs }
    requires unit { u.0 < graph.now.units }
    ensures rows { IsLeftBut (is_named (λ v. u.0 == v) graph.now.rows) (table_of dylibs.old d.0) (table_of dylibs.new d.0) }
    ensures rest { ChangesOnlyTable d.0 dylibs.old dylibs.new }
{
    drop_span(dylibs, d, graph.rows(), graph.span(u));
}

/// The rows of the units' instances leave the dylib's table.
fn drop_all_names(dylibs: &mut Dylibs, d: DylibId, graph: &InstanceGraph, gone: &LinkedList<UnitId>)
    requires dylib { d.0 < length dylibs.old.dylibs }
    requires units { All (λ (u : UnitId). u.0 < graph.now.units) gone.now }
    ensures rows { IsLeftBut (is_named (goes gone.now) graph.now.rows) (table_of dylibs.old d.0) (table_of dylibs.new d.0) }
    ensures rest { ChangesOnlyTable d.0 dylibs.old dylibs.new }
    ensures count { length dylibs.new.tables ≡ length dylibs.new.dylibs }
{
    for u in gone.iter() {
        drop_names(dylibs, d, graph, *u);
    }
    // for its clause
    dylibs.len();
}

/// The unit is removed, and its range, if it has one, is free.
fn retire<U: UnitKind>(units: &mut Units<U>, space: &mut Space, u: UnitId)
    requires there { u.0 < length units.old.units }
    requires ranged { AreRanged U.meaning units.old.units space.old }
    ensures units { units.new ≡ record units.old { units = changed_at u.0 one.removed units.old.units } }
    ensures space { AreFreed (u ∷ []) space.old space.new }
    ensures ranged { AreRanged U.meaning units.new.units space.new }
{
    free(units, space, u);
    units.remove(u);
}

/// The units are removed, and their ranges are free.
fn retire_all<U: UnitKind>(units: &mut Units<U>, space: &mut Space, gone: &LinkedList<UnitId>)
    requires there { All (λ (u : UnitId). u.0 < length units.old.units) gone.now }
    requires ranged { AreRanged U.meaning units.old.units space.old }
    ensures units { AreRemoved gone.now units.old.units units.new.units }
    ensures jobs { units.new.jobs ≡ units.old.jobs }
    ensures space { AreFreed gone.now space.old space.new }
{
    for u in gone.iter() {
        retire(units, space, *u);
    }
}

/// The generators are spent.
fn spend_all<U: UnitKind>(generators: &mut Generators<U>, gone: &LinkedList<GenId>)
    ensures { AreSpent gone.now generators.old.rows generators.new.rows }
{
    for g in gone.iter() {
        generators.spend(*g);
    }
}

impl<U: UnitKind, N: Notify> Parts<U, N> {
    /// All that the tracker has goes: its units with their names, jobs and ranges, and its generators. It
    /// costs what it has, and a look at each job. Takes no memory.
    pub fn remove(&mut self, t: TrackId)
        ghost m: { Plain }
        requires parts { AreParts U.meaning self.old m }
        requires once { HasOneRowInEach m.rows }
        requires home { IsTrackerOf m t.0 (tracker_dylib m t.0) }
        requires dylib { tracker_dylib m t.0 < length m.dylibs }
        requires there { has_tracker m t.0 ≡ true }
        ensures parts { AreParts U.meaning self.new (removed t.0 m) }
        ensures tells { Tells self.old.graph self.new.graph }
        ensures rest { self.new ≡ record self.old { dylibs = self.new.dylibs; graph = self.new.graph; units = self.new.units; generators = self.new.generators; trackers = self.new.trackers; space = self.new.space } }
    {
        // for its law
        shelf_drops();
        let owned = self.trackers.take(t);
        drop_all_names(&mut self.dylibs, owned.dylib, &self.graph, &owned.units);
        self.graph.remove(&owned.units);
        retire_all(&mut self.units, &mut self.space, &owned.units);
        self.units.drop_jobs(&owned.units);
        spend_all(&mut self.generators, &owned.generators);
    }
}
