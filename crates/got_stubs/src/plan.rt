ghost use Rattle.std.specs.Prelude.{◌≡◌, ◌+◌, ◌*◌, ◌<◌, ◌≤◌, ◌^◌, max, IfOk};
ghost use Rattle.link_model.specs.Graph.{external_symbols};
ghost use Rattle.link_model.specs.Layout.{aligned, block_offsets, layout_of, CELL_SIZE, STUB_SIZE};
ghost use Rattle.link_model.specs.Sound.{Sound, IsSized};
ghost use Rattle.got_stubs.specs.Plan.{IsPlan};

use crate::blocks::{PlacedBlocks, greatest_align, place_blocks};
use crate::marks::{Mark, marks_of};
use crate::parts::{Part, externals_of, parts_of};
use crate::tables::{Tables, place_tables};
use crate::turns::align_up;
use crate::walks::count_with;
use link_model::{Layout, LinkGraph};
use orc_ids::{Items, Shape};
use std::alloc::{AllocError, Global};

/// What is prepared of a graph, so that its shape with any live names takes one pass over its symbols
/// and no memory.
#[derive(Drop)]
pub struct Plan {
    marks: Vec<Mark>,
    offsets: Vec<u64>,
    end: u64,
    align: u64,
}

/// Prepares a graph.
pub fn plan_of(alloc: Global, g: &LinkGraph) -> Result<Plan, AllocError>
    requires sound { Sound g.now }
    requires sized { IsSized g.now }
    ensures { IfOk result (λ plan. IsPlan g.now plan) }
{
    let marks = marks_of(alloc, g)?;
    let PlacedBlocks { offsets, end } = place_blocks(alloc, g)?;
    Ok(Plan {
        marks,
        offsets,
        end,
        align: greatest_align(g),
    })
}

/// What a unit needs whose blocks end here, with so many cells and stubs.
fn need_behind(end: u64, cells: usize, stubs: usize) -> u64
    requires low { end ≤ 80 * 1024 * 1024 }
    requires few_cells { cells ≤ 65536 }
    requires few_stubs { stubs ≤ 65536 }
    ensures { result ≡ max 16 (aligned (aligned (aligned end 8 + CELL_SIZE * cells) 16 + STUB_SIZE * stubs) 16) }
{
    let stubs_start = align_up(align_up(end, 8) + 8 * cells as u64, 16);
    align_up(stubs_start + 16 * stubs as u64, 16).max(16)
}

impl Plan {
    /// The memory that the unit needs.
    pub fn shape(&self, g: &LinkGraph, live: &[bool]) -> Shape
        requires { IsPlan g.now self.now }
        ensures { result ≡ (layout_of g.now live.now).shape }
    {
        let symbols = g.symbols.as_slice();
        let cells = count_with(Part::Cell, &self.marks, symbols, live);
        let stubs = count_with(Part::Stub, &self.marks, symbols, live);
        Shape {
            need: need_behind(self.end, cells, stubs),
            align: self.align,
        }
    }

    /// Its externals, in symbol order.
    pub fn externals(
        &self,
        alloc: Global,
        g: &LinkGraph,
        live: &[bool],
    ) -> Result<Vec<u32>, AllocError>
        requires { IsPlan g.now self.now }
        ensures { IfOk result (λ symbols. symbols.items ≡ external_symbols g.now live.now) }
    {
        externals_of(alloc, g, &self.marks, live)
    }

    /// Where the parts of the unit lie. `live` has a flag for each offered symbol, in symbol order; a flag
    /// that isn't there says that the symbol isn't live.
    pub fn layout(&self, alloc: Global, g: &LinkGraph, live: &[bool]) -> Result<Layout, AllocError>
        requires { IsPlan g.now self.now }
        ensures exact { IfOk result (λ l. l ≡ layout_of g.now live.now) }
        ensures small { IfOk result (λ l. l.shape.need < 2 ^ 27) }
    {
        let parts = parts_of(alloc, g, &self.marks, live)?;
        let Tables { cells, stubs, need } = place_tables(
            alloc,
            self.end,
            &parts.cells,
            &parts.stubs,
        )?;
        let blocks = self.offsets.as_slice().to_vec(alloc)?;
        let live = live.to_vec(alloc)?;
        Ok(Layout {
            blocks: Items::from_vec(blocks),
            cells: Items::from_vec(cells),
            stubs: Items::from_vec(stubs),
            shape: Shape {
                need,
                align: self.align,
            },
            externals: Items::from_vec(parts.externals),
            live: Items::from_vec(live),
        })
    }

    /// The offsets of the blocks.
    pub fn block_offsets<'a>(&'a self, g: &LinkGraph) -> &'a [u64]
        requires { IsPlan g.now self.now }
        ensures { result.now ≡ block_offsets 0 g.now.blocks }
    {
        self.offsets.as_slice()
    }
}
