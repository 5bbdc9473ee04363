ghost use Rattle.std.specs.Prelude.{◌≡◌, map, IfOk};
ghost use Rattle.link_model.specs.Graph.{is_offered};
ghost use Rattle.link_model.specs.Offers.{name_of};
ghost use Rattle.session_units.specs.Offered.{offer_of, AreOffers};

use link_model::{GPlace, GSym, LinkGraph};
use orc_ids::{NameId, SymFlags};
use std::alloc::{AllocError, Global};

/// A symbol that a unit offers.
#[derive(Clone, Copy)]
pub struct Offer {
    pub name: NameId,
    pub flags: SymFlags,
    pub place: GPlace,
}

/// The name of a symbol that isn't local.
pub(crate) fn symbol_name(s: &GSym) -> NameId
    ensures { result ≡ name_of s.now }
{
    match s.name {
        Some(name) => name,
        None => NameId(0),
    }
}

fn offers(s: &GSym) -> bool
    ensures { result ≡ is_offered s.now }
{
    s.global && !matches!(s.place, GPlace::External(_))
}

fn as_offer(s: &GSym) -> Offer
    ensures { result ≡ offer_of s.now }
{
    Offer {
        name: symbol_name(s),
        flags: s.flags,
        place: s.place,
    }
}

/// What a unit offers, in symbol order.
pub(crate) fn all_offers(alloc: Global, g: &LinkGraph) -> Result<Vec<Offer>, AllocError>
    ensures { IfOk result (λ all. AreOffers g.now all.items) }
{
    let mut all = Vec::new(alloc);
    for s in g.symbols.as_slice() {
        if offers(s) {
            all.push(as_offer(s))?;
        }
    }
    Ok(all)
}
