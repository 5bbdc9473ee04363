//! The units and the names of the lines.

use orc_ids::{DylibId, NameId, Shape, SymFlags, UnitName, Wanted};
use orc_names::{NameError, Names};
use session_model::UnitKind;
use std::alloc::{AllocError, Global};

/// A unit that is known by its name alone. It offers one symbol, and needs no memory.
#[derive(Drop)]
pub(super) struct Named(pub(super) UnitName);

impl UnitKind for Named {
    ghost use Rattle.std.specs.Prelude.{true, false, [], ◌∷◌, None};

    ghost meaning = { λ u. record {
      name = u.0;
      offers = (record { 0 = 0 }, record { weak = false; common = false; exported = false; callable = false }) ∷ [];
      shape = λ _. None;
      address = λ _ _. 0;
      source = None;
      externals = λ _. record { name = record { 0 = 1 }; weak = true } ∷ [];
      image = λ _ _ _. [];
      groups = λ _ _ _ own. record { members = own; deps = [] } ∷ [];
      refusal = λ _ _ _. None;
    } };

    fn known(&self) {}

    fn count(&self) -> u32 {
        1
    }

    fn offer(&self, _k: u32) -> (NameId, SymFlags) {
        let flags = SymFlags {
            weak: false,
            common: false,
            exported: false,
            callable: false,
        };
        (NameId(0), flags)
    }

    fn share(&self, _alloc: Global) -> Result<Named, AllocError> {
        Ok(Named(self.0))
    }

    fn source(&self) -> Option<DylibId> {
        None
    }

    fn name(&self) -> UnitName {
        self.0
    }

    fn shape(&self, _live: &[bool]) -> Option<Shape> {
        None
    }

    fn address(&self, _k: u32, _base: u64) -> u64 {
        0
    }

    fn externals(&self, alloc: Global, _live: &[bool]) -> Result<Vec<Wanted>, AllocError> {
        let wanted = Wanted {
            name: NameId(1),
            weak: true,
        };
        Ok(vec![in alloc; wanted]?)
    }
}

/// The names of the lines, from 0.
pub(super) fn names(alloc: Global) -> Result<Names, NameError> {
    let mut names = Names::new(alloc);
    for name in ["main", "f", "nosuch", "f@V1"] {
        names.intern(name.as_bytes())?;
    }
    Ok(names)
}
