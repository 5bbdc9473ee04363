ghost use Rattle.std.specs.Prelude.{◌≡◌, ◌+◌, ◌<◌, ◌≤◌, ◌^◌, IfOk, drop, length};
ghost use Rattle.got_stubs.specs.Marks.{owner_of, next_offer};
ghost use Rattle.link_model.specs.Graph.{is_defined, is_offered, first_flag, own_symbols};

use link_model::{GPlace, GSym};
use std::alloc::{AllocError, Global};

pub(crate) fn defined(place: GPlace) -> bool
    ensures { result ≡ is_defined place }
{
    !matches!(place, GPlace::External(_))
}

pub(crate) fn offers(s: &GSym) -> bool
    ensures { result ≡ is_offered s.now }
{
    s.global && defined(s.place)
}

/// The flag of the offered symbol of this number; one that isn't there isn't live.
pub(crate) fn is_live(live: &[bool], offer: usize) -> bool
    ensures { result ≡ first_flag (drop offer live.now) }
{
    match live.get(offer) {
        Some(flag) => *flag,
        None => false,
    }
}

/// Whether the unit itself defines a symbol, which is the offered one of this number if it is offered.
pub(crate) fn owns(s: &GSym, live: &[bool], offer: usize) -> bool
    ensures { result ≡ owner_of s.now (drop offer live.now) }
{
    if offers(s) {
        is_live(live, offer)
    } else {
        defined(s.place)
    }
}

/// The number of the next offered symbol behind this one.
pub(crate) fn offer_behind(s: &GSym, offer: usize) -> usize
    requires { offer < 2 ^ 32 }
    ensures exact { result ≡ next_offer s.now offer }
    ensures near { result ≤ offer + 1 }
{
    if offers(s) { offer + 1 } else { offer }
}

/// For each symbol whether the unit itself defines it.
pub fn owners_of(alloc: Global, symbols: &[GSym], live: &[bool]) -> Result<Vec<bool>, AllocError>
    ensures exact { IfOk result (λ own. own.items ≡ own_symbols symbols.now live.now) }
    ensures whole { IfOk result (λ own. length own.items ≡ length symbols.now) }
{
    let mut own = Vec::new(alloc);
    let mut offer: usize = 0;
    for s in symbols {
        if offers(s) {
            own.push(is_live(live, offer))?;
            offer += 1;
        } else {
            own.push(defined(s.place))?;
        }
    }
    Ok(own)
}
