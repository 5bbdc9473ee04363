ghost use Rattle.std.specs.Prelude.{◌≡◌, ◌++◌, ◌∷◌, [], IfOk};
ghost use Rattle.session_model.specs.Change.{is_kept, kept_names};
ghost use Rattle.jit_dylib.specs.Rows.{replaced_instances};

use orc_ids::{InstId, Items};
use session_model::Verdict;
use std::alloc::{AllocError, Global};

/// What became of the names that a unit offered.
#[derive(Drop)]
pub struct Defined {
    /// For each offered name whether it stayed.
    pub live: Items<bool>,
    /// The instances that were replaced, in the order of the names that replaced them.
    pub replaced: Items<InstId>,
}

/// Whether the name gets an instance.
fn keeps(verdict: Verdict) -> bool
    ensures { result ≡ is_kept verdict }
{
    matches!(verdict, Verdict::Kept | Verdict::Replaces(_))
}

/// For each name whether it stays.
fn live_flags(alloc: Global, found: &[Verdict]) -> Result<Items<bool>, AllocError>
    ensures { IfOk result (λ live. live ≡ kept_names found.now) }
{
    let mut live = Vec::with_capacity(alloc, found.len())?;
    for verdict in found {
        live.push(keeps(*verdict))?;
    }
    Ok(Items::from_vec(live))
}

/// Adds the instance that is replaced, if one is.
fn push_replaced(replaced: &mut Vec<InstId>, verdict: Verdict) -> Result<(), AllocError>
    ensures { IfOk result (λ _. replaced.new.items ≡ replaced.old.items ++ replaced_instances (verdict ∷ [])) }
{
    if let Verdict::Replaces(i) = verdict {
        replaced.push(i)?;
    }
    Ok(())
}

/// The instances that are replaced.
fn replaced_instances(alloc: Global, found: &[Verdict]) -> Result<Items<InstId>, AllocError>
    ensures { IfOk result (λ replaced. replaced ≡ replaced_instances found.now) }
{
    let mut replaced = Vec::new(alloc);
    for verdict in found {
        push_replaced(&mut replaced, *verdict)?;
    }
    Ok(Items::from_vec(replaced))
}

impl Defined {
    /// What these verdicts say.
    pub(crate) fn of(alloc: Global, found: &[Verdict]) -> Result<Defined, AllocError>
        ensures live { IfOk result (λ d. d.live ≡ kept_names found.now) }
        ensures replaced { IfOk result (λ d. d.replaced ≡ replaced_instances found.now) }
    {
        Ok(Defined {
            live: live_flags(alloc, found)?,
            replaced: replaced_instances(alloc, found)?,
        })
    }
}
