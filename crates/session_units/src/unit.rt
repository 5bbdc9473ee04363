ghost use Rattle.std.specs.Prelude.{◌≡◌, ◌≤◌, ◌↔◌, ℕ, Bool, List, length, IsTrue, IfOk};
ghost use Rattle.unit_fixups.specs.Sound.{Alone};
ghost use Rattle.link_model.specs.Layout.{layout_of};
ghost use Rattle.link_model.specs.Sound.{Sound, IsSized, OffersDiffer};
ghost use Rattle.orc_ids.specs.declared.limits.TheConstants.{INSTANCE_LIMIT};
ghost use Rattle.session_units.specs.Meaning.{graph_meaning};
ghost use Rattle.session_units.specs.Names.{NamesDiffer};
ghost use Rattle.session_units.specs.Others.{absolutes_meaning, alias_meaning};
ghost use Rattle.session_units.specs.Units.{meaning_of, StandsAlone};

use crate::absolute_unit::AbsoluteUnit;
use crate::alias_unit::AliasUnit;
use crate::graph_unit::GraphUnit;
use link_model::LinkGraph;
use orc_ids::{DylibId, NameId, Shape, SymFlags, UnitName, Wanted};
use session_model::UnitKind;
use std::alloc::{AllocError, Global};

/// A unit of a session: the graph of an object, a list of absolute symbols, or an alias.
#[derive(Drop)]
pub enum ObjectUnit {
    Graph(GraphUnit),
    Absolutes(AbsoluteUnit),
    Alias(AliasUnit),
}

impl ObjectUnit {
    /// The unit of a graph. The work is linear in the graph.
    pub fn of_graph(alloc: Global, name: UnitName, g: LinkGraph) -> Result<ObjectUnit, AllocError>
        requires sound { Sound g }
        requires sized { IsSized g }
        requires offers { OffersDiffer g }
        ensures exact { IfOk result (λ unit. meaning_of unit ≡ graph_meaning name g) }
        ensures alone { IfOk result (λ unit. (live : List Bool) → StandsAlone unit live ↔ Alone g (layout_of g live)) }
    {
        Ok(ObjectUnit::Graph(GraphUnit::of_graph(alloc, name, g)?))
    }

    /// The unit of absolute symbols, each with its address, whose names differ: no more than a session has
    /// instances.
    pub fn of_absolutes(
        alloc: Global,
        name: UnitName,
        list: &[(NameId, u64)],
    ) -> Result<ObjectUnit, AllocError>
        requires differ { NamesDiffer list.now }
        requires few { length list.now ≤ INSTANCE_LIMIT }
        ensures { IfOk result (λ unit. meaning_of unit ≡ absolutes_meaning name list.now) }
    {
        Ok(ObjectUnit::Absolutes(AbsoluteUnit::of_list(alloc, name, list)?))
    }

    /// The unit of a name that stands for a target in another dylib. It takes no memory.
    pub fn of_alias(name: UnitName, alias: NameId, source: DylibId, target: NameId) -> ObjectUnit
        ensures { meaning_of result ≡ alias_meaning name alias source target }
    {
        ObjectUnit::Alias(AliasUnit {
            name,
            alias,
            source,
            target,
        })
    }

    /// Whether the unit needs no other, and has no cell and no stub.
    pub fn stands_alone(&self, alloc: Global, live: &[bool]) -> Result<bool, AllocError>
        ensures { IfOk result (λ alone. IsTrue alone ↔ StandsAlone self.now live.now) }
    {
        match self {
            ObjectUnit::Graph(unit) => unit.stands_alone(alloc, live),
            ObjectUnit::Absolutes(_) => Ok(true),
            ObjectUnit::Alias(_) => Ok(false),
        }
    }
}

impl UnitKind for ObjectUnit {
    ghost use Rattle.session_units.specs.Units.{meaning_of};

    ghost meaning = { λ u. meaning_of u };

    fn known(&self) {
        match self {
            ObjectUnit::Graph(unit) => unit.known(),
            ObjectUnit::Absolutes(unit) => unit.known(),
            ObjectUnit::Alias(unit) => unit.known(),
        }
    }

    fn count(&self) -> u32 {
        match self {
            ObjectUnit::Graph(unit) => unit.count(),
            ObjectUnit::Absolutes(unit) => unit.count(),
            ObjectUnit::Alias(unit) => unit.count(),
        }
    }

    fn offer(&self, k: u32) -> (NameId, SymFlags) {
        match self {
            ObjectUnit::Graph(unit) => unit.offer(k),
            ObjectUnit::Absolutes(unit) => unit.offer(k),
            ObjectUnit::Alias(unit) => unit.offer(k),
        }
    }

    fn share(&self, alloc: Global) -> Result<ObjectUnit, AllocError> {
        match self {
            ObjectUnit::Graph(unit) => Ok(ObjectUnit::Graph(unit.share(alloc)?)),
            ObjectUnit::Absolutes(unit) => Ok(ObjectUnit::Absolutes(unit.share()?)),
            ObjectUnit::Alias(unit) => Ok(ObjectUnit::Alias(unit.share(alloc)?)),
        }
    }

    fn source(&self) -> Option<DylibId> {
        match self {
            ObjectUnit::Graph(unit) => unit.source(),
            ObjectUnit::Absolutes(_) => None,
            ObjectUnit::Alias(unit) => unit.source(),
        }
    }

    fn name(&self) -> UnitName {
        match self {
            ObjectUnit::Graph(unit) => unit.name(),
            ObjectUnit::Absolutes(unit) => unit.name,
            ObjectUnit::Alias(unit) => unit.name(),
        }
    }

    fn shape(&self, live: &[bool]) -> Option<Shape> {
        match self {
            ObjectUnit::Graph(unit) => unit.shape(live),
            ObjectUnit::Absolutes(_) => None,
            ObjectUnit::Alias(unit) => unit.shape(live),
        }
    }

    fn address(&self, k: u32, base: u64) -> u64 {
        match self {
            ObjectUnit::Graph(unit) => unit.address(k, base),
            ObjectUnit::Absolutes(unit) => unit.address(k),
            ObjectUnit::Alias(unit) => unit.address(k, base),
        }
    }

    fn externals(&self, alloc: Global, live: &[bool]) -> Result<Vec<Wanted>, AllocError> {
        match self {
            ObjectUnit::Graph(unit) => unit.externals(alloc, live),
            ObjectUnit::Absolutes(_) => Ok(Vec::new(alloc)),
            ObjectUnit::Alias(unit) => unit.externals(alloc, live),
        }
    }
}
