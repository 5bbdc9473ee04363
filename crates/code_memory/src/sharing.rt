ghost use Rattle.std.specs.Prelude.{◌≡◌};

use crate::placement::Placement;
use std::alloc::{AllocError, Global};
use std::collections::BTreeMap;

/// Readies the deposits from a base on to be shared with images, at the cost of looking at those.
/// Where memory runs out, some of them stay owned.
pub(crate) fn share_from(
    alloc: Global,
    placed: &mut BTreeMap<u64, Placement>,
    base: u64,
) -> Result<(), AllocError>
    ensures { placed.new.entries ≡ placed.old.entries }
{
    let mut at = base;
    for _ in 0..placed.len() {
        let Some(owned) = first_owned(placed, at) else {
            return Ok(());
        };
        share_at(alloc, placed, owned)?;
        at = owned;
    }
    Ok(())
}

/// The first base, from an address on, whose deposit nobody shares yet.
fn first_owned(placed: &BTreeMap<u64, Placement>, at: u64) -> Option<u64> {
    for (base, placement) in placed.range(at..) {
        if placement.is_owned() {
            return Some(*base);
        }
    }
    None
}

/// Readies the deposit at a base to be shared.
fn share_at(
    alloc: Global,
    placed: &mut BTreeMap<u64, Placement>,
    base: u64,
) -> Result<(), AllocError>
    ensures { placed.new.entries ≡ placed.old.entries }
{
    match placed.get_mut(&base) {
        Some(placement) => placement.make_shared(alloc),
        None => Ok(()),
    }
}
