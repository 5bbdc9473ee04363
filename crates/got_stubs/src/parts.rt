ghost use Rattle.std.specs.Prelude.{◌≡◌, ◌≤◌, length, IfOk};
ghost use Rattle.link_model.specs.Graph.{numbers_where, external_symbols};
ghost use Rattle.link_model.specs.Layout.{cell_symbols, stub_symbols};
ghost use Rattle.got_stubs.specs.Marks.{has_part, part_at, AreMarks};

use crate::marks::Mark;
use crate::owners::owners_of;
use link_model::LinkGraph;
use std::alloc::{AllocError, Global};

/// What a symbol may have of the unit.
#[derive(Clone, Copy)]
pub(crate) enum Part {
    /// A place among the externals.
    External,
    Cell,
    Stub,
}

/// The symbols of each kind, in symbol order.
#[derive(Drop)]
pub(crate) struct Parts {
    pub(crate) externals: Vec<u32>,
    pub(crate) cells: Vec<u32>,
    pub(crate) stubs: Vec<u32>,
}

/// Whether a symbol with this mark has the part.
pub(crate) fn takes_part(part: Part, own: bool, mark: Mark) -> bool
    ensures { result ≡ has_part part own mark }
{
    match part {
        Part::External => !own && mark.referred,
        Part::Cell => mark.cell || !own && mark.called,
        Part::Stub => !own && mark.called,
    }
}

/// The symbols that have the part.
fn list_with(
    alloc: Global,
    part: Part,
    own: &[bool],
    marks: &[Mark],
) -> Result<Vec<u32>, AllocError>
    requires few { length own.now ≤ 65536 }
    requires same { length own.now ≡ length marks.now }
    ensures exact { IfOk result (λ symbols. symbols.items ≡ numbers_where (part_at part marks.now) 0 own.now) }
    ensures few { IfOk result (λ symbols. length symbols.items ≤ length own.now) }
{
    let mut symbols = Vec::new(alloc);
    for (s, owned) in own.iter().enumerate() {
        if takes_part(part, *owned, marks[s]) {
            symbols.push(s as u32)?;
        }
    }
    Ok(symbols)
}

/// The lists by the marks.
fn lists_of(alloc: Global, own: &[bool], marks: &[Mark]) -> Result<Parts, AllocError>
    requires few { length own.now ≤ 65536 }
    requires same { length own.now ≡ length marks.now }
    ensures externals { IfOk result (λ parts. parts.externals.items ≡ numbers_where (part_at Part.External marks.now) 0 own.now) }
    ensures cells { IfOk result (λ parts. parts.cells.items ≡ numbers_where (part_at Part.Cell marks.now) 0 own.now) }
    ensures stubs { IfOk result (λ parts. parts.stubs.items ≡ numbers_where (part_at Part.Stub marks.now) 0 own.now) }
    ensures few_cells { IfOk result (λ parts. length parts.cells.items ≤ 65536) }
    ensures few_stubs { IfOk result (λ parts. length parts.stubs.items ≤ 65536) }
{
    let externals = list_with(alloc, Part::External, own, marks)?;
    let cells = list_with(alloc, Part::Cell, own, marks)?;
    let stubs = list_with(alloc, Part::Stub, own, marks)?;
    Ok(Parts {
        externals,
        cells,
        stubs,
    })
}

/// The externals.
pub(crate) fn externals_of(
    alloc: Global,
    g: &LinkGraph,
    marks: &[Mark],
    live: &[bool],
) -> Result<Vec<u32>, AllocError>
    requires few { length g.now.symbols ≤ 65536 }
    requires whole { length marks.now ≡ length g.now.symbols }
    requires marks { AreMarks g.now.edges marks.now }
    ensures { IfOk result (λ symbols. symbols.items ≡ external_symbols g.now live.now) }
{
    let own = owners_of(alloc, g.symbols.as_slice(), live)?;
    Ok(list_with(alloc, Part::External, &own, marks)?)
}

/// The externals, and the symbols that have cells and stubs.
pub(crate) fn parts_of(
    alloc: Global,
    g: &LinkGraph,
    marks: &[Mark],
    live: &[bool],
) -> Result<Parts, AllocError>
    requires few { length g.now.symbols ≤ 65536 }
    requires whole { length marks.now ≡ length g.now.symbols }
    requires marks { AreMarks g.now.edges marks.now }
    ensures externals { IfOk result (λ parts. parts.externals.items ≡ external_symbols g.now live.now) }
    ensures cells { IfOk result (λ parts. parts.cells.items ≡ cell_symbols g.now live.now) }
    ensures stubs { IfOk result (λ parts. parts.stubs.items ≡ stub_symbols g.now live.now) }
    ensures few_cells { IfOk result (λ parts. length parts.cells.items ≤ 65536) }
    ensures few_stubs { IfOk result (λ parts. length parts.stubs.items ≤ 65536) }
{
    let own = owners_of(alloc, g.symbols.as_slice(), live)?;
    Ok(lists_of(alloc, &own, marks)?)
}
