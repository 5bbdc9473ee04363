ghost use Rattle.std.specs.Prelude.{◌≡◌, ◌∷◌, [], IfOk};
ghost use Rattle.session_model.specs.Meaning.{bound_instances};
ghost use Rattle.session_units.specs.Others.{alias_meaning};

use crate::absolute_unit::{ABSOLUTE_FLAGS, one_group};
use orc_ids::{DylibId, Groups, InstId, NameId, Shape, SymFlags, UnitName, Wanted};
use session_model::UnitKind;
use std::alloc::{AllocError, Global};

/// A name that stands for another one, which is looked up in a dylib of its own choice
/// (ORC: `ReExportsMaterializationUnit`).
#[derive(Clone, Copy, Drop)]
pub struct AliasUnit {
    pub(crate) name: UnitName,
    pub(crate) alias: NameId,
    pub(crate) source: DylibId,
    pub(crate) target: NameId,
}

/// The instances that are bound.
fn bound_to(alloc: Global, bound: &[Option<(InstId, u64)>]) -> Result<Vec<InstId>, AllocError>
    ensures { IfOk result (λ all. all.items ≡ bound_instances bound.now) }
{
    let mut all = Vec::new(alloc);
    for found in bound {
        if let Some((instance, _)) = *found {
            all.push(instance)?;
        }
    }
    Ok(all)
}

impl AliasUnit {
    /// The one group of its instance, which depends on the one that its target is bound to.
    pub(crate) fn groups(
        &self,
        alloc: Global,
        bound: &[Option<(InstId, u64)>],
        own: &[InstId],
    ) -> Result<Groups, AllocError>
        ensures { IfOk result (λ groups. groups ≡ record { members = own.now; deps = bound_instances bound.now } ∷ []) }
    {
        one_group(alloc, own, bound_to(alloc, bound)?)
    }
}

impl UnitKind for AliasUnit {
    ghost use Rattle.session_units.specs.AliasUnits.{alias_unit_meaning};

    ghost meaning = { λ u. alias_unit_meaning u };

    fn known(&self) {}

    fn count(&self) -> u32 {
        1
    }

    fn offer(&self, _k: u32) -> (NameId, SymFlags) {
        (self.alias, ABSOLUTE_FLAGS)
    }

    fn share(&self, _alloc: Global) -> Result<AliasUnit, AllocError> {
        Ok(*self)
    }

    fn source(&self) -> Option<DylibId> {
        Some(self.source)
    }

    fn name(&self) -> UnitName {
        self.name
    }

    /// An alias needs no memory.
    fn shape(&self, _live: &[bool]) -> Option<Shape> {
        None
    }

    fn address(&self, _k: u32, base: u64) -> u64 {
        base
    }

    fn externals(&self, alloc: Global, _live: &[bool]) -> Result<Vec<Wanted>, AllocError> {
        let wanted = Wanted {
            name: self.target,
            weak: false,
        };
        Ok(vec![in alloc; wanted]?)
    }
}
