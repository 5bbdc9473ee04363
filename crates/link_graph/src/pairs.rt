ghost use Rattle.std.specs.Prelude.{◌≡◌, ◌≤◌, ◌^◌, length, slice_get, IfOk};
ghost use Rattle.link_model.specs.declared.graph.GPlace.TheVariants.{Abs};
ghost use Rattle.link_model.specs.Image.{at_or, is_paired, is_upper};
ghost use Rattle.link_graph.specs.Checks.{first_error, error_among};
ghost use Rattle.link_graph.specs.Parts.{AreUppers, is_labelled, label_error, place_error};

use crate::error::GraphError;
use elf_read::{Reloc, Section};
use link_model::kinds::{GOT_HI20, PCREL_HI20, PCREL_LO12_I, PCREL_LO12_S};
use link_model::{Edge, GPlace};
use orc_ids::Place;
use std::alloc::{AllocError, Global};
use std::collections::HashSet;

/// A place as a key.
#[derive(Clone, Copy, PartialEq, Eq, Hash)]
struct Label {
    block: u32,
    offset: u64,
}

/// Places, so that whether one is among them is told in constant time.
#[derive(Drop)]
struct Labels {
    keys: HashSet<Label>,
}

fn is_upper_kind(kind: u32) -> bool
    ensures { result ≡ is_upper kind }
{
    kind == GOT_HI20 || kind == PCREL_HI20
}

fn is_paired_kind(kind: u32) -> bool
    ensures { result ≡ is_paired kind }
{
    kind == PCREL_LO12_I || kind == PCREL_LO12_S
}

/// The places of the upper edges.
fn upper_labels(alloc: Global, edges: &[Edge]) -> Result<Labels, AllocError>
    ensures { IfOk result (λ labels. AreUppers labels.keys.keys edges.now) }
{
    let mut keys = HashSet::new(alloc);
    for e in edges {
        if is_upper_kind(e.kind) {
            let label = Label {
                block: e.block,
                offset: e.offset,
            };
            keys.insert(label)?;
        }
    }
    Ok(Labels { keys })
}

/// Whether a place in a block is among the labels.
fn labelled(labels: &Labels, place: GPlace) -> bool
    ensures { result ≡ is_labelled labels.now.keys.keys place }
{
    match place {
        GPlace::In(block, offset) => labels.keys.contains(&Label { block, offset }),
        _ => false,
    }
}

fn place_there(places: &[GPlace], symbol: u32) -> Option<GPlace>
    ensures { result ≡ slice_get places.now symbol }
{
    places.get(symbol as usize).copied()
}

/// The place of a symbol.
fn place_at(places: &[GPlace], symbol: u32) -> GPlace
    ensures { result ≡ at_or (Abs 0) places.now symbol }
{
    match place_there(places, symbol) {
        Some(place) => place,
        None => GPlace::Abs(0),
    }
}

/// The refusal of a relocation that needs a pair and has none.
fn pair_refused(labels: &Labels, places: &[GPlace], block: u32, r: &Reloc) -> Option<GraphError>
    ensures { result ≡ label_error labels.now.keys.keys places.now block r.now }
{
    if is_paired_kind(r.kind) && !(r.addend == 0 && labelled(labels, place_at(places, r.symbol))) {
        return Some(GraphError::BadPair(Place {
            block,
            offset: r.at,
        }));
    }
    None
}

fn first_unpaired(
    labels: &Labels,
    places: &[GPlace],
    block: u32,
    relocs: &[Reloc],
) -> Option<GraphError>
    ensures { result ≡ first_error (label_error labels.now.keys.keys places.now block) relocs.now }
{
    for r in relocs {
        let refused = pair_refused(labels, places, block, r);
        if refused.is_some() {
            return refused;
        }
    }
    None
}

fn first_unpaired_in(labels: &Labels, places: &[GPlace], sections: &[Section]) -> Option<GraphError>
    requires { length sections.now ≤ 2 ^ 32 }
    ensures { result ≡ error_among (label_error labels.now.keys.keys places.now) 0 sections.now }
{
    for (block, section) in sections.iter().enumerate() {
        let refused = first_unpaired(labels, places, block as u32, section.relocs.as_slice());
        if refused.is_some() {
            return refused;
        }
    }
    None
}

/// The first relocation that needs a pair and has none among the edges.
pub(crate) fn pairs_refused(
    alloc: Global,
    places: &[GPlace],
    edges: &[Edge],
    sections: &[Section],
) -> Result<Option<GraphError>, AllocError>
    requires { length sections.now ≤ 2 ^ 32 }
    ensures { IfOk result (λ refused. refused ≡ error_among (place_error places.now edges.now) 0 sections.now) }
{
    let labels = upper_labels(alloc, edges)?;
    Ok(first_unpaired_in(&labels, places, sections))
}
