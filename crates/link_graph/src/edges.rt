ghost use Rattle.std.specs.Prelude.{◌≡◌, ◌≤◌, ◌^◌, ◌++◌, length, IfOk, OnOk};
ghost use Rattle.link_graph.specs.Object.{is_mark, edge_of, section_edges};
ghost use Rattle.link_graph.specs.Padding.{trimmed_addend, trimmed_reloc, trimmed_by, all_cuts};
ghost use Rattle.link_graph.specs.Parts.{trimmed_edges};

use crate::cuts::{Cuts, is_align, needed, padding, power_over};
use elf_read::{Reloc, Section};
use link_model::Edge;
use link_model::kinds::{NONE, RELAX};
use std::alloc::{AllocError, Global};

/// Whether a relocation only marks a place, so that no edge stands for it.
pub(crate) fn marks_only(r: &Reloc) -> bool
    ensures { result ≡ is_mark r.now }
{
    r.kind == NONE || r.kind == RELAX
}

/// The addend after deletion, at a place: that of ALIGN is what is kept of its padding.
fn addend_at(cuts: &Cuts, r: &Reloc) -> i64
    ensures { result ≡ trimmed_addend cuts.now r.now }
{
    if !is_align(r) {
        return r.addend;
    }
    needed(cuts.moved(r.at), power_over(padding(r.addend))) as i64
}

fn edge_in(block: u32, cuts: &Cuts, r: &Reloc) -> Edge
    ensures { result ≡ edge_of block (trimmed_reloc cuts.now r.now) }
{
    Edge {
        block,
        offset: cuts.moved(r.at),
        kind: r.kind,
        target: r.symbol,
        addend: addend_at(cuts, r),
    }
}

/// Adds the edges of one section.
fn add_edges(
    edges: &mut Vec<Edge>,
    block: u32,
    section: &Section,
    cuts: &Cuts,
) -> Result<(), AllocError>
    ensures { OnOk result (edges.new.items ≡ edges.old.items ++ section_edges block (trimmed_by cuts.now section.now)) }
{
    for r in section.relocs.as_slice() {
        if !marks_only(r) {
            edges.push(edge_in(block, cuts, r))?;
        }
    }
    Ok(())
}

/// How many relocations the sections have: at least as many as edges.
fn reloc_count(sections: &[Section]) -> usize {
    sections.iter().fold(
        0,
        |count: usize, section| count.saturating_add(section.relocs.as_slice().len()),
    )
}

/// The edges of the sections after deletion.
pub(crate) fn all_edges(
    alloc: Global,
    sections: &[Section],
    cuts: &[Cuts],
) -> Result<Vec<Edge>, AllocError>
    requires few { length sections.now ≤ 2 ^ 32 }
    requires same { cuts.now ≡ all_cuts sections.now }
    ensures { IfOk result (λ edges. edges.items ≡ trimmed_edges 0 sections.now) }
{
    let mut edges = Vec::with_capacity(alloc, reloc_count(sections))?;
    for (block, section) in sections.iter().enumerate() {
        add_edges(&mut edges, block as u32, section, &cuts[block])?;
    }
    Ok(edges)
}
