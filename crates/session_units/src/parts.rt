ghost use Rattle.std.specs.Prelude.{◌≡◌, ◌<◌, ◌%◌, ◌^◌, [], None, length, map, slice_get, count_by, IfOk, IfErr};
ghost use Rattle.unit_fixups.specs.Refusal.{Refuses};
ghost use Rattle.session_units.specs.Meaning.{instances, addresses};
ghost use Rattle.block_groups.specs.Groups.{groups_of};
ghost use Rattle.link_model.specs.Image.{at_or, own_address, image_of, refused_edge};
ghost use Rattle.link_model.specs.Layout.{layout_of};
ghost use Rattle.link_model.specs.Offers.{offers_of, offer_address, wanted_by, wanted_of, is_weak_reference, no_symbol};
ghost use Rattle.got_stubs.specs.Plan.{IsPlan};
ghost use Rattle.link_model.specs.Sound.{Sound, PlaceFits, IsSized, OffersDiffer};

use crate::finishing::finish_graph;
use crate::offers::{Offer, all_offers, symbol_name};
use got_stubs::{Plan, plan_of};
use link_model::{GPlace, LinkGraph};
use orc_ids::{Bytes, Groups, InstId, NameId, Shape, SymFlags, Wanted};
use std::alloc::{AllocError, Global};
use std::marker::Model;
use unit_fixups::FixError;

/// A graph with what is prepared of it.
#[derive(Drop)]
pub(crate) struct Parts {
    graph: LinkGraph,
    plan: Plan,
    offers: Vec<Offer>,
}

impl Model for Parts {
    ghost use Rattle.link_model.specs.declared.graph.LinkGraph.{LinkGraph};
    ghost use Rattle.got_stubs.specs.Plan.{IsPlan};
    ghost use Rattle.link_model.specs.Sound.{Sound, IsSized, OffersDiffer};
    ghost use Rattle.session_units.specs.Offered.{AreOffers};

    ghost Value = { LinkGraph };

    ghost view = { λ p. p.graph };

    ghost invariant = { λ p. Sound p.graph × IsSized p.graph × OffersDiffer p.graph × IsPlan p.graph p.plan × AreOffers p.graph p.offers.items };
}

impl Parts {
    /// Prepares a graph.
    pub(crate) fn of_graph(alloc: Global, g: LinkGraph) -> Result<Parts, AllocError>
        requires sound { Sound g }
        requires sized { IsSized g }
        requires offers { OffersDiffer g }
        ensures { IfOk result (λ parts. parts ≡ g) }
    {
        let plan = plan_of(alloc, &g)?;
        let offers = all_offers(alloc, &g)?;
        Ok(Parts {
            graph: g,
            plan,
            offers,
        })
    }

    /// What is known of the graph.
    pub(crate) fn known(&self)
        ensures sound { Sound self.now }
        ensures sized { IsSized self.now }
        ensures offers { OffersDiffer self.now }
    {
        let _graph = &self.graph;
    }

    pub(crate) fn graph(&self) -> &LinkGraph
        ensures { result.now ≡ self.now }
    {
        &self.graph
    }

    pub(crate) fn count(&self) -> u32
        ensures { result ≡ length (offers_of self.now) }
    {
        self.offers.as_slice().len() as u32
    }

    pub(crate) fn offer(&self, k: u32) -> (NameId, SymFlags)
        requires { k < length (offers_of self.now) }
        ensures { slice_get (offers_of self.now) k ≡ Some result }
    {
        let offer = self.offers[k as usize];
        (offer.name, offer.flags)
    }

    pub(crate) fn shape(&self, live: &[bool]) -> Shape
        ensures { result ≡ (layout_of self.now live.now).shape }
    {
        self.plan.shape(&self.graph, live)
    }

    pub(crate) fn address(&self, k: u32, base: u64) -> u64
        requires { k < length (offers_of self.now) }
        ensures { result ≡ offer_address self.now k base % 2 ^ 64 }
    {
        let place = self.offers[k as usize].place;
        place_address(&self.graph, &self.plan, place, base)
    }

    /// The groups and the image; or the first edge out of range.
    pub(crate) fn finish(
        &self,
        alloc: Global,
        live: &[bool],
        base: u64,
        bound: &[Option<(InstId, u64)>],
        own: &[InstId],
    ) -> Result<(Groups, Bytes), FixError>
        requires flags { length live.now ≡ length (offers_of self.now) }
        requires bound { length bound.now ≡ length (wanted_by self.now live.now) }
        requires own { length own.now ≡ count_by (λ b. b) live.now }
        requires low { base < 2 ^ 62 }
        ensures allowed { IfOk result (λ made. refused_edge self.now (layout_of self.now live.now) base (addresses bound.now) ≡ None) }
        ensures groups { IfOk result (λ made. made.0 ≡ groups_of self.now live.now own.now (instances bound.now)) }
        ensures image { IfOk result (λ made. made.1 ≡ image_of self.now (layout_of self.now live.now) base (addresses bound.now)) }
        ensures refused { IfErr result (λ e. Refuses e (refused_edge self.now (layout_of self.now live.now) base (addresses bound.now))) }
    {
        finish_graph(alloc, &self.graph, &self.plan, live, base, bound, own)
    }

    pub(crate) fn externals(&self, alloc: Global, live: &[bool]) -> Result<Vec<Wanted>, AllocError>
        ensures { IfOk result (λ wanted. wanted.items ≡ wanted_by self.now live.now) }
    {
        let symbols = self.plan.externals(alloc, &self.graph, live)?;
        Ok(all_wanted(alloc, &self.graph, symbols.as_slice())?)
    }
}

/// The address of a place of the unit at a base, modulo 2^64.
fn place_address(g: &LinkGraph, plan: &Plan, place: GPlace, base: u64) -> u64
    requires plan { IsPlan g.now plan.now }
    requires fits { PlaceFits g.now place }
    ensures { result ≡ own_address (layout_of g.now []) base place % 2 ^ 64 }
{
    match place {
        GPlace::In(block, offset) => {
            let start = plan.block_offsets(g)[block as usize];
            base.wrapping_add(start).wrapping_add(offset)
        }
        GPlace::Abs(address) => address,
        GPlace::External(_) => 0,
    }
}

fn weakly_wanted(place: GPlace) -> bool
    ensures { result ≡ is_weak_reference place }
{
    match place {
        GPlace::External(weak) => weak,
        _ => false,
    }
}

/// What the unit wants by the symbol of a number.
fn wanted_at(g: &LinkGraph, symbol: u32) -> Wanted
    ensures { result ≡ wanted_of (at_or no_symbol g.now.symbols symbol) }
{
    match g.symbols.as_slice().get(symbol as usize) {
        Some(s) => Wanted {
            name: symbol_name(s),
            weak: weakly_wanted(s.place),
        },
        None => Wanted {
            name: NameId(0),
            weak: false,
        },
    }
}

/// What the unit wants by the symbols of these numbers.
fn all_wanted(alloc: Global, g: &LinkGraph, symbols: &[u32]) -> Result<Vec<Wanted>, AllocError>
    ensures { IfOk result (λ wanted. wanted.items ≡ map (λ s. wanted_of (at_or no_symbol g.now.symbols s)) symbols.now) }
{
    let mut wanted = Vec::with_capacity(alloc, symbols.len())?;
    for symbol in symbols {
        wanted.push_reserved(wanted_at(g, *symbol));
    }
    Ok(wanted)
}
