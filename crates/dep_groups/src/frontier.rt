ghost use Rattle.std.specs.Prelude.{◌≡◌, ◌↔◌, ◌<◌, ◌≤◌, ℕ, [], IsTrue, OnOk, OnErr, Contains};
ghost use Rattle.orc_ids.specs.declared.ids.InstId.{InstId};
ghost use Rattle.dep_groups.specs.Frontier.{AreApart, AreAbsent, AreEmitted, IsReady, IsPendingCount, IsNews, AreHits, AreFailed};

use crate::emit::emit_groups;
use crate::fail::fail_all;
use crate::graph::Graph;
use crate::hits::{Hits, make_places};
use crate::nodes::Nodes;
use crate::pending::count_pending;
use crate::places::is_set;
use crate::resolve::Core;
use crate::trail::Trail;
use orc_ids::{Group, InstId};
use std::alloc::{AllocError, Global};
use std::marker::Model;

/// Which instances are emitted, which of them are ready, and what the last failure hit.
#[derive(Drop)]
pub struct Frontier {
    core: Core,
    hits: Hits,
}

impl Model for Frontier {
    ghost use Rattle.dep_groups.specs.Frontier.{Waiting};

    ghost Value = { Waiting };

    ghost use Rattle.std.specs.Prelude.{length};
    ghost use Rattle.dep_groups.specs.Kept.{entries_in};
    ghost use Rattle.dep_groups.specs.Hits.{IsWhole};

    ghost view = { λ f. record { entries = entries_in f.core; told = f.core.told.items; places = length f.hits.flags.items; hits = f.hits.order.items } };

    ghost invariant = { λ f. IsWhole f.core f.hits };
}

impl Frontier {
    /// Nothing emitted; takes no memory.
    pub fn new(alloc: Global) -> Frontier
        ensures entries { result.entries ≡ [] }
        ensures told { result.told ≡ [] }
        ensures places { result.places ≡ 0 }
        ensures hits { result.hits ≡ [] }
    {
        Frontier {
            core: Core {
                graph: Graph {
                    homes: Vec::new(alloc),
                    nodes: Nodes::new(alloc),
                    firsts: Vec::new(alloc),
                    edges: Vec::new(alloc),
                    ready: Vec::new(alloc),
                },
                links: Vec::new(alloc),
                nexts: Vec::new(alloc),
                heads: Vec::new(alloc),
                cursors: Vec::new(alloc),
                trail: Trail {
                    seen: Vec::new(alloc),
                    order: Vec::new(alloc),
                },
                told: Vec::new(alloc),
            },
            hits: Hits {
                flags: Vec::new(alloc),
                order: Vec::new(alloc),
            },
        }
    }

    /// Makes places for all instances below a number, so that a failure among them takes no memory.
    pub fn room(&mut self, count: usize) -> Result<(), AllocError>
        ensures entries { self.new.entries ≡ self.old.entries }
        ensures told { self.new.told ≡ self.old.told }
        ensures hits { self.new.hits ≡ self.old.hits }
        ensures more { self.old.places ≤ self.new.places }
        ensures room { OnOk result (count ≤ self.new.places) }
        ensures err { OnErr result (self.new ≡ self.old) }
    {
        make_places(&mut self.hits, count)
    }

    /// Emits the members of groups with what each group depends on.
    pub fn emit(&mut self, groups: &[Group]) -> Result<(), AllocError>
        requires apart { AreApart groups.now }
        requires absent { AreAbsent self.old.entries groups.now }
        ensures emitted { OnOk result (AreEmitted groups.now self.old.entries self.new.entries) }
        ensures told { OnOk result (IsNews self.old.entries self.new.entries self.new.told) }
        ensures hits { self.new.hits ≡ self.old.hits }
        ensures more { self.old.places ≤ self.new.places }
        ensures err { OnErr result (self.new ≡ self.old) }
    {
        emit_groups(&mut self.core, &mut self.hits, groups)
    }

    /// Takes back what the failure of some instances hits: all that reaches one of them, so that
    /// it can be emitted again; takes no memory.
    pub fn fail(&mut self, roots: &[InstId])
        requires within { (m : InstId) → Contains roots.now m → m.0 < self.old.places }
        requires unready { (m : InstId) → Contains roots.now m → IsReady self.old.entries m.0 → ⊥ }
        ensures hits { AreHits self.old.entries roots.now self.new.hits }
        ensures entries { AreFailed self.old.entries self.new.entries roots.now }
        ensures told { self.new.told ≡ self.old.told }
        ensures places { self.new.places ≡ self.old.places }
    {
        fail_all(&mut self.core, &mut self.hits, roots);
    }

    /// The instances that the last failure hit.
    pub fn hits(&self) -> &[InstId]
        ensures { result.now ≡ self.now.hits }
    {
        self.hits.order.as_slice()
    }

    /// The instances that became ready at the last emission.
    pub fn told(&self) -> &[InstId]
        ensures { result.now ≡ self.now.told }
    {
        self.core.told.as_slice()
    }

    /// How many instances an emitted one reaches that are not emitted; of one that is not, itself.
    /// It searches, and takes no memory: it writes what it comes to into the room of an emission.
    pub fn pending_count(&mut self, instance: InstId) -> usize
        ensures count { IsPendingCount self.old.entries instance.0 result }
        ensures same { self.new ≡ self.old }
    {
        count_pending(&mut self.core, &mut self.hits, instance)
    }

    /// Whether all that the instance reaches is emitted; takes no memory.
    pub fn is_ready(&self, instance: InstId) -> bool
        ensures { IsTrue result ↔ IsReady self.now.entries instance.0 }
    {
        is_set(&self.core.graph.ready, instance.0 as usize)
    }
}
