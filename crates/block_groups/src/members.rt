ghost use Rattle.std.specs.Prelude.{◌≡◌, ◌<◌, ◌&&◌, ◌++◌, ◌∷◌, if◌then◌else◌, ℕ, [], All, length, IfOk, OnOk};
ghost use Rattle.link_model.specs.Graph.{is_offered, own_symbols};
ghost use Rattle.block_groups.specs.Groups.{live_places};
ghost use Rattle.link_model.specs.Sound.{IsSized, PlaceFits, Sound};
ghost use Rattle.link_model.specs.declared.graph.GPlace.{GPlace as PlaceSeen};
ghost use Rattle.block_groups.specs.Members.{places_of, list_of, AreMembers};

use crate::lists::Lists;
use link_model::{GPlace, GSym, LinkGraph};
use orc_ids::InstId;
use std::alloc::{AllocError, Global};

/// Whether a symbol is offered and live.
fn is_live(s: &GSym, own: bool) -> bool
    ensures { result ≡ (is_offered s.now && own) }
{
    s.global && !matches!(s.place, GPlace::External(_)) && own
}

/// Puts the place of a symbol at the end, if it is offered and live.
fn add_place(places: &mut Vec<GPlace>, s: &GSym, own: bool) -> Result<(), AllocError>
    ensures { OnOk result (places.new.items ≡ (if is_offered s.now && own then places.old.items ++ s.now.place ∷ [] else places.old.items)) }
{
    if is_live(s, own) {
        places.push(s.place)?;
    }
    Ok(())
}

/// The places of the offered symbols that the unit owns, in symbol order.
fn places_of(alloc: Global, symbols: &[GSym], owners: &[bool]) -> Result<Vec<GPlace>, AllocError>
    requires { length owners.now ≡ length symbols.now }
    ensures { IfOk result (λ places. places.items ≡ places_of symbols.now owners.now) }
{
    let mut places = Vec::new(alloc);
    for (s, symbol) in symbols.iter().enumerate() {
        add_place(&mut places, symbol, owners[s])?;
    }
    Ok(places)
}

/// The list of a place, with so many blocks.
fn list_of(count: usize, place: GPlace) -> Option<usize>
    ensures { result ≡ list_of count place }
{
    match place {
        GPlace::In(block, _) => Some(block as usize),
        GPlace::Abs(_) => Some(count),
        GPlace::External(_) => None,
    }
}

fn note_members(
    lists: &mut Lists<InstId>,
    g: &LinkGraph,
    places: &[GPlace],
    own: &[InstId],
) -> Result<(), AllocError>
    requires fit { All (λ (p : PlaceSeen). PlaceFits g.now p) places.now }
    requires own { length own.now ≡ length places.now }
    requires none { AreMembers (length g.now.blocks) [] [] lists.old }
    ensures { OnOk result (AreMembers (length g.now.blocks) places.now own.now lists.new) }
{
    for k in 0..places.len() {
        if let Some(list) = list_of(g.blocks.len(), places[k]) {
            lists.push(list, own[k])?;
        }
    }
    Ok(())
}

/// The instances whose names stand in each block, and behind those of the blocks the list of those that
/// are absolute. `owners` has for each symbol whether the unit itself defines it, and `own` an instance
/// for each live name.
pub(crate) fn members_by_block(
    alloc: Global,
    g: &LinkGraph,
    owners: &[bool],
    own: &[InstId],
) -> Result<Lists<InstId>, AllocError>
    requires sound { Sound g.now }
    requires sized { IsSized g.now }
    requires owners { length owners.now ≡ length g.now.symbols }
    requires own { length own.now ≡ length (places_of g.now.symbols owners.now) }
    ensures { IfOk result (λ lists. AreMembers (length g.now.blocks) (places_of g.now.symbols owners.now) own.now lists) }
{
    let places = places_of(alloc, g.symbols.as_slice(), owners)?;
    let mut lists = Lists::new(alloc, g.blocks.len() + 1)?;
    note_members(&mut lists, g, &places, own)?;
    Ok(lists)
}
