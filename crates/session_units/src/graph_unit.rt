ghost use Rattle.std.specs.Prelude.{◌≡◌, ◌↔◌, ◌<◌, ◌^◌, None, IsTrue, IfOk, IfErr};
ghost use Rattle.link_model.specs.Sound.{Sound, IsSized, OffersDiffer};
ghost use Rattle.unit_fixups.specs.Refusal.{Refuses};
ghost use Rattle.session_model.specs.Meaning.{FitsUnit};
ghost use Rattle.session_units.specs.GraphUnits.{unit_graph, graph_unit_meaning, GraphAlone};

use crate::parts::Parts;
use got_stubs::synthesise;
use link_model::LinkGraph;
use orc_ids::{Bytes, DylibId, Groups, InstId, NameId, Shape, SymFlags, UnitName, Wanted};
use session_model::UnitKind;
use std::alloc::{AllocError, Global};
use std::sync::Arc;
use unit_fixups::{FixError, is_alone};

/// The unit of an object. A share of it is another handle to the same graph.
#[derive(Drop)]
pub struct GraphUnit {
    pub(crate) name: UnitName,
    pub(crate) parts: Arc<Parts, Global>,
}

impl GraphUnit {
    /// The unit of a graph. The work is linear in the graph.
    pub(crate) fn of_graph(
        alloc: Global,
        name: UnitName,
        g: LinkGraph,
    ) -> Result<GraphUnit, AllocError>
        requires sound { Sound g }
        requires sized { IsSized g }
        requires offers { OffersDiffer g }
        ensures named { IfOk result (λ unit. unit.name ≡ name) }
        ensures exact { IfOk result (λ unit. unit_graph unit ≡ g) }
    {
        let parts = Arc::new(alloc, Parts::of_graph(alloc, g)?)?;
        Ok(GraphUnit { name, parts })
    }

    /// The groups and the image; or the first edge out of range.
    pub(crate) fn finish(
        &self,
        alloc: Global,
        live: &[bool],
        base: u64,
        bound: &[Option<(InstId, u64)>],
        own: &[InstId],
    ) -> Result<(Groups, Bytes), FixError>
        requires fits { FitsUnit (graph_unit_meaning self.now) live.now bound.now own.now }
        requires low { base < 2 ^ 62 }
        ensures allowed { IfOk result (λ made. (graph_unit_meaning self.now).refusal live.now base bound.now ≡ None) }
        ensures groups { IfOk result (λ made. made.0 ≡ (graph_unit_meaning self.now).groups live.now base bound.now own.now) }
        ensures image { IfOk result (λ made. made.1 ≡ (graph_unit_meaning self.now).image live.now base bound.now) }
        ensures refused { IfErr result (λ e. Refuses e ((graph_unit_meaning self.now).refusal live.now base bound.now)) }
    {
        self.parts.finish(alloc, live, base, bound, own)
    }

    /// Whether the unit needs no other, and has no cell and no stub.
    pub(crate) fn stands_alone(&self, alloc: Global, live: &[bool]) -> Result<bool, AllocError>
        ensures { IfOk result (λ alone. IsTrue alone ↔ GraphAlone self.now live.now) }
    {
        self.parts.known();
        let graph = self.parts.graph();
        let layout = synthesise(alloc, graph, live)?;
        Ok(is_alone(graph, &layout))
    }
}

impl UnitKind for GraphUnit {
    ghost use Rattle.session_units.specs.GraphUnits.{graph_unit_meaning};

    ghost meaning = { λ u. graph_unit_meaning u };

    fn known(&self) {
        self.parts.known();
    }

    fn count(&self) -> u32 {
        self.parts.count()
    }

    fn offer(&self, k: u32) -> (NameId, SymFlags) {
        self.parts.offer(k)
    }

    fn share(&self, _alloc: Global) -> Result<GraphUnit, AllocError> {
        Ok(GraphUnit {
            name: self.name,
            parts: Arc::try_clone(&self.parts)?,
        })
    }

    /// No object is an alias.
    fn source(&self) -> Option<DylibId> {
        None
    }

    fn name(&self) -> UnitName {
        self.name
    }

    fn shape(&self, live: &[bool]) -> Option<Shape> {
        Some(self.parts.shape(live))
    }

    fn address(&self, k: u32, base: u64) -> u64 {
        self.parts.address(k, base)
    }

    fn externals(&self, alloc: Global, live: &[bool]) -> Result<Vec<Wanted>, AllocError> {
        self.parts.externals(alloc, live)
    }
}
