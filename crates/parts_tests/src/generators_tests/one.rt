ghost use Rattle.std.specs.Prelude.{◌∷◌, [], false, true, None};
ghost use Rattle.orc_ids.specs.declared.ids.UnitName.TheVariants.{Absolute};

use orc_ids::{DylibId, NameId, Shape, SymFlags, UnitName, Wanted};
use session_model::UnitKind;
use std::alloc::{AllocError, Global};

/// A unit that offers one name, and wants another one.
#[derive(Drop)]
pub(super) struct One {
    pub(super) name: NameId,
    pub(super) exported: bool,
}

impl UnitKind for One {
    ghost meaning = { λ u. record {
      name = Absolute 0;
      offers = (u.name, record { weak = false; common = false; exported = u.exported; callable = true }) ∷ [];
      shape = λ live. None;
      address = λ k base. base;
      source = None;
      externals = λ live. record { name = record { 0 = 1 }; weak = true } ∷ [];
      image = λ live base bound. [];
      groups = λ live base bound own. record { members = own; deps = [] } ∷ [];
      refusal = λ live base bound. None;
    } };

    fn known(&self) {}

    fn count(&self) -> u32 {
        1
    }

    fn offer(&self, _k: u32) -> (NameId, SymFlags) {
        let flags = SymFlags {
            weak: false,
            common: false,
            exported: self.exported,
            callable: true,
        };
        (self.name, flags)
    }

    fn source(&self) -> Option<DylibId> {
        None
    }

    fn share(&self, _alloc: Global) -> Result<One, AllocError> {
        Ok(One {
            name: self.name,
            exported: self.exported,
        })
    }

    fn name(&self) -> UnitName {
        UnitName::Absolute(0)
    }

    fn shape(&self, _live: &[bool]) -> Option<Shape> {
        None
    }

    fn address(&self, _k: u32, base: u64) -> u64 {
        base
    }

    fn externals(&self, alloc: Global, _live: &[bool]) -> Result<Vec<Wanted>, AllocError> {
        let wanted = Wanted {
            name: NameId(1),
            weak: true,
        };
        Ok(vec![in alloc; wanted]?)
    }
}
