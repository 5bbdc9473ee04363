ghost use Rattle.std.specs.Prelude.{◌≡◌, ◌<◌, All, [], length, slice_index_or, slice_set, IfOk};
ghost use Rattle.link_model.specs.Layout.{needs_cell, needs_stub};
ghost use Rattle.link_model.specs.Sound.{Sound};
ghost use Rattle.link_model.specs.declared.graph.Edge.{Edge as EdgeSeen};
ghost use Rattle.got_stubs.specs.Marks.{no_mark, marked, AreMarks};

use link_model::kinds::{CALL, CALL_PLT, GOT_HI20, PLT32};
use link_model::{Edge, LinkGraph};
use std::alloc::{AllocError, Global};

/// How edges refer to a symbol.
#[derive(Clone, Copy)]
pub(crate) struct Mark {
    /// Some edge does.
    pub(crate) referred: bool,
    /// One does through its GOT cell.
    pub(crate) cell: bool,
    /// One is a call of it.
    pub(crate) called: bool,
}

fn names_cell(e: &Edge) -> bool
    ensures { result ≡ needs_cell e.now }
{
    e.kind == GOT_HI20
}

fn calls(e: &Edge) -> bool
    ensures { result ≡ needs_stub e.now }
{
    e.kind == CALL || e.kind == CALL_PLT || e.kind == PLT32
}

/// The mark of a symbol that one more edge refers to.
fn with_edge(mark: Mark, e: &Edge) -> Mark
    ensures { result ≡ marked mark e.now }
{
    Mark {
        referred: true,
        cell: mark.cell || names_cell(e),
        called: mark.called || calls(e),
    }
}

/// Marks the symbol that an edge refers to.
fn note_edge(marks: &mut [Mark], e: &Edge)
    requires { e.now.target < length marks.old }
    ensures { marks.new ≡ slice_set marks.old e.now.target (marked (slice_index_or marks.old e.now.target no_mark) e.now) }
{
    let target = e.target as usize;
    marks[target] = with_edge(marks[target], e);
}

/// Marks every symbol that an edge refers to.
fn mark_all(marks: &mut [Mark], edges: &[Edge])
    requires there { All (λ (e : EdgeSeen). e.target < length marks.old) edges.now }
    requires none { AreMarks [] marks.old }
    ensures { AreMarks edges.now marks.new }
{
    for e in edges {
        note_edge(marks, e);
    }
}

/// How the edges refer to each symbol.
pub(crate) fn marks_of(alloc: Global, g: &LinkGraph) -> Result<Vec<Mark>, AllocError>
    requires { Sound g.now }
    ensures whole { IfOk result (λ marks. length marks.items ≡ length g.now.symbols) }
    ensures marks { IfOk result (λ marks. AreMarks g.now.edges marks.items) }
{
    let mut marks = Vec::new(alloc);
    let none = Mark {
        referred: false,
        cell: false,
        called: false,
    };
    marks.resize(g.symbols.len(), none)?;
    mark_all(marks.as_mut_slice(), g.edges.as_slice());
    Ok(marks)
}
