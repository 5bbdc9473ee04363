ghost use Rattle.std.specs.Prelude.{◌≡◌, ◌≢◌, ◌↔◌, IsTrue, All};
ghost use Rattle.link_model.specs.Layout.{layout_of};
ghost use Rattle.link_model.specs.declared.graph.Edge.{Edge as EdgeSeen};
ghost use Rattle.unit_fixups.specs.Sound.{Alone, Closed, AllLive};

use link_model::kinds::GOT_HI20;
use link_model::{Edge, Layout, LinkGraph};

fn names_no_cell(edges: &[Edge]) -> bool
    ensures { IsTrue result ↔ All (λ (e : EdgeSeen). e.kind ≢ 20) edges.now }
{
    edges.iter().all(|e| e.kind != GOT_HI20)
}

/// Whether the unit needs no other and has no cell and no stub, so that `fix` takes it.
pub fn is_alone(g: &LinkGraph, l: &Layout) -> bool
    ensures { IsTrue result ↔ Alone g.now l.now }
{
    l.externals.is_empty()
        && l.cells.is_empty()
        && l.stubs.is_empty()
        && names_no_cell(g.edges.as_slice())
}

/// The law that a closed graph, all of whose names are live, needs no other unit.
pub fn closed_graph_is_alone(g: &LinkGraph, l: &Layout)
    requires closed { Closed g.now }
    requires laid { l.now ≡ layout_of g.now l.now.live }
    requires live { AllLive g.now l.now.live }
    ensures { Alone g.now l.now }
{}
