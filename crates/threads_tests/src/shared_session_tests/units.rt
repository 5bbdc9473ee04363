//! The tests' unit.

ghost use Rattle.std.specs.Prelude.{false, true, [], ◌∷◌, replicate, Some, None, cond, slice_get, unwrap_or};
ghost use Rattle.orc_ids.specs.declared.ids.UnitName.TheVariants.{Absolute};

use orc_ids::{DylibId, NameId, Shape, SymFlags, UnitName, Wanted};
use session_model::UnitKind;
use std::alloc::{AllocError, Global};

/// A unit with one name, at its start, and 48 bytes that are all 7.
#[derive(Drop)]
pub(super) struct Named {
    name: NameId,
    weak: bool,
}

impl Named {
    /// A unit with this strong name.
    pub(super) fn strong(name: u32) -> Named {
        Named {
            name: NameId(name),
            weak: false,
        }
    }
}

impl UnitKind for Named {
    ghost meaning = { λ u. record {
      name = Absolute 0;
      offers = (u.name, record { weak = u.weak; common = false; exported = true; callable = true }) ∷ [];
      shape = λ live. Some (record { need = 48; align = 16 });
      address = λ k base. base;
      source = None;
      externals = λ live. cond (unwrap_or (slice_get live 0) true) [] (record { name = u.name; weak = false } ∷ []);
      image = λ live base bound. replicate 48 7;
      groups = λ live base bound own. record { members = own; deps = [] } ∷ [];
      refusal = λ live base bound. None;
    } };

    fn known(&self) {}

    fn count(&self) -> u32 {
        1
    }

    fn offer(&self, _k: u32) -> (NameId, SymFlags) {
        let flags = SymFlags {
            weak: self.weak,
            common: false,
            exported: true,
            callable: true,
        };
        (self.name, flags)
    }

    fn source(&self) -> Option<DylibId> {
        None
    }

    fn share(&self, _alloc: Global) -> Result<Named, AllocError> {
        Ok(Named {
            name: self.name,
            weak: self.weak,
        })
    }

    fn name(&self) -> UnitName {
        UnitName::Absolute(0)
    }

    fn shape(&self, _live: &[bool]) -> Option<Shape> {
        Some(Shape {
            need: 48,
            align: 16,
        })
    }

    fn address(&self, _k: u32, base: u64) -> u64 {
        base
    }

    fn externals(&self, alloc: Global, live: &[bool]) -> Result<Vec<Wanted>, AllocError> {
        let mut wanted = Vec::new(alloc);
        if !live[0] {
            wanted.push(Wanted {
                name: self.name,
                weak: false,
            })?;
        }
        Ok(wanted)
    }
}
