//! The tests' unit.

ghost use Rattle.std.specs.Prelude.{◌+◌, false, true, [], ◌∷◌, replicate, Some, None, ◌≡◌, IfOk};
ghost use Rattle.std.specs.Option.{option_map_or};
ghost use Rattle.orc_ids.specs.declared.ids.UnitName.TheVariants.{Absolute};

use execution_session::{Finished, Finishes};
use orc_ids::{Bytes, DylibId, Group, InstId, Items, NameId, Shape, SymFlags, UnitName, Wanted};
use session_model::UnitKind;
use std::alloc::{AllocError, Global};

/// A unit with one name, at its start, and bytes that are all 7.
#[derive(Clone, Copy)]
pub(super) struct Named {
    pub(super) name: NameId,
    pub(super) weak: bool,
    /// The name that it looks up, if it does.
    pub(super) wants: Option<NameId>,
    /// How many bytes it has after the first.
    pub(super) more: u32,
}

/// A unit of 48 bytes with the strong name 0.
pub(super) const FIRST: Named = Named {
    name: NameId(0),
    weak: false,
    wants: None,
    more: 47,
};

impl UnitKind for Named {
    ghost meaning = { λ u. record {
      name = Absolute 0;
      offers = (u.name, record { weak = u.weak; common = false; exported = true; callable = true }) ∷ [];
      shape = λ live. Some (record { need = u.more + 1; align = 16 });
      address = λ k base. base;
      source = None;
      externals = λ live. option_map_or (λ n. record { name = n; weak = false } ∷ []) u.wants [];
      image = λ live base bound. replicate (u.more + 1) 7;
      groups = λ live base bound own. record { members = own; deps = [] } ∷ [];
      refusal = λ live base bound. None;
    } };

    fn known(&self) {}

    fn count(&self) -> u32 {
        1
    }

    fn offer(&self, _k: u32) -> (NameId, SymFlags) {
        let flags = SymFlags {
            weak: self.weak,
            common: false,
            exported: true,
            callable: true,
        };
        (self.name, flags)
    }

    fn source(&self) -> Option<DylibId> {
        None
    }

    fn share(&self, _alloc: Global) -> Result<Named, AllocError> {
        Ok(*self)
    }

    fn name(&self) -> UnitName {
        UnitName::Absolute(0)
    }

    fn shape(&self, _live: &[bool]) -> Option<Shape> {
        Some(Shape {
            need: self.more as u64 + 1,
            align: 16,
        })
    }

    fn address(&self, _k: u32, base: u64) -> u64 {
        base
    }

    fn externals(&self, alloc: Global, _live: &[bool]) -> Result<Vec<Wanted>, AllocError> {
        let mut wanted = Vec::new(alloc);
        if let Some(name) = self.wants {
            wanted.push(Wanted { name, weak: false })?;
        }
        Ok(wanted)
    }
}

/// A group of all members, which depends on nothing.
fn one_group(alloc: Global, own: &[InstId]) -> Result<Vec<Group>, AllocError>
    ensures { IfOk result (λ groups. groups.items ≡ record { members = own.now; deps = [] } ∷ []) }
{
    let mut groups = Vec::new(alloc);
    groups.push(Group {
        members: Items::from_vec(own.to_vec(alloc)?),
        deps: Items::new(alloc),
    })?;
    Ok(groups)
}

impl Finishes for Named {
    fn finish(
        &self,
        alloc: Global,
        _live: &[bool],
        _base: u64,
        _bound: &[Option<(InstId, u64)>],
        own: &[InstId],
    ) -> Result<Option<Finished>, AllocError> {
        let groups = one_group(alloc, own)?;
        let bytes = vec![in alloc; 7; self.more as usize + 1]?;
        Ok(Some(Finished {
            groups: Items::from_vec(groups),
            bytes: Bytes::from_vec(bytes),
        }))
    }
}
