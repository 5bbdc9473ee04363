ghost use Rattle.std.specs.Prelude.{◌≡◌, ◌∷◌, [], IfOk};
ghost use Rattle.session_units.specs.Meaning.{instances, addresses};

use orc_ids::InstId;
use std::alloc::{AllocError, Global};

fn instance_of(found: Option<(InstId, u64)>) -> Option<InstId>
    ensures { instances (found ∷ []) ≡ result ∷ [] }
{
    match found {
        Some((instance, _)) => Some(instance),
        None => None,
    }
}

/// The instances that are bound.
pub(crate) fn bound_instances(
    alloc: Global,
    bound: &[Option<(InstId, u64)>],
) -> Result<Vec<Option<InstId>>, AllocError>
    ensures { IfOk result (λ all. all.items ≡ instances bound.now) }
{
    let mut all = Vec::new(alloc);
    for found in bound {
        all.push(instance_of(*found))?;
    }
    Ok(all)
}

fn address_of(found: Option<(InstId, u64)>) -> Option<u64>
    ensures { addresses (found ∷ []) ≡ result ∷ [] }
{
    match found {
        Some((_, address)) => Some(address),
        None => None,
    }
}

/// The addresses of what is bound.
pub(crate) fn bound_addresses(
    alloc: Global,
    bound: &[Option<(InstId, u64)>],
) -> Result<Vec<Option<u64>>, AllocError>
    ensures { IfOk result (λ all. all.items ≡ addresses bound.now) }
{
    let mut all = Vec::new(alloc);
    for found in bound {
        all.push(address_of(*found))?;
    }
    Ok(all)
}
