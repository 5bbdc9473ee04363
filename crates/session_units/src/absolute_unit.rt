ghost use Rattle.std.specs.Prelude.{◌≡◌, ◌∷◌, ◌<◌, ◌≤◌, [], length, slice_get, Some, IfOk};
ghost use Rattle.block_groups.specs.Groups.{group_of};
ghost use Rattle.orc_ids.specs.declared.limits.TheConstants.{INSTANCE_LIMIT};
ghost use Rattle.session_model.specs.Meaning.{IsLawful};
ghost use Rattle.session_units.specs.AbsoluteUnits.{absolute_unit_meaning};
ghost use Rattle.session_units.specs.Names.{NamesDiffer};
ghost use Rattle.session_units.specs.Others.{absolutes_meaning};

use orc_ids::{Group, Groups, InstId, Items, NameId, SymFlags, UnitName};
use std::alloc::{AllocError, Global};
use std::marker::Model;
use std::sync::Arc;

/// The flags of an absolute symbol, and of an alias: strong, exported, not callable.
pub(crate) const ABSOLUTE_FLAGS: SymFlags = SymFlags {
    weak: false,
    common: false,
    exported: true,
    callable: false,
};

/// Absolute symbols, each with its address.
#[derive(Drop)]
pub(crate) struct Absolutes {
    symbols: Vec<(NameId, u64)>,
}

impl Model for Absolutes {
    ghost use Rattle.std.specs.Prelude.{ℕ, List, length, ◌≤◌};
    ghost use Rattle.orc_ids.specs.declared.limits.TheConstants.{INSTANCE_LIMIT};
    ghost use Rattle.orc_ids.specs.declared.ids.NameId.{NameId};
    ghost use Rattle.session_units.specs.Names.{NamesDiffer};

    ghost Value = { List (NameId × ℕ) };

    ghost view = { λ a. a.symbols.items };

    ghost invariant = { λ a. NamesDiffer a.symbols.items × (length a.symbols.items ≤ INSTANCE_LIMIT) };
}

impl Absolutes {
    fn of_list(alloc: Global, list: &[(NameId, u64)]) -> Result<Absolutes, AllocError>
        requires differ { NamesDiffer list.now }
        requires few { length list.now ≤ INSTANCE_LIMIT }
        ensures { IfOk result (λ made. made ≡ list.now) }
    {
        Ok(Absolutes {
            symbols: list.to_vec(alloc)?,
        })
    }

    fn known(&self)
        ensures { NamesDiffer self.now }
    {
        let _symbols = &self.symbols;
    }

    fn count(&self) -> u32
        ensures { result ≡ length self.now }
    {
        self.symbols.len() as u32
    }

    fn symbol(&self, k: u32) -> (NameId, u64)
        requires { k < length self.now }
        ensures { slice_get self.now k ≡ Some result }
    {
        self.symbols[k as usize]
    }
}

/// The unit of a list of absolute symbols. A share of it is another handle to the same list.
#[derive(Drop)]
pub struct AbsoluteUnit {
    pub(crate) name: UnitName,
    pub(crate) list: Arc<Absolutes, Global>,
}

impl AbsoluteUnit {
    /// The unit of some symbols, whose names differ.
    pub(crate) fn of_list(
        alloc: Global,
        name: UnitName,
        list: &[(NameId, u64)],
    ) -> Result<AbsoluteUnit, AllocError>
        requires differ { NamesDiffer list.now }
        requires few { length list.now ≤ INSTANCE_LIMIT }
        ensures { IfOk result (λ unit. absolute_unit_meaning unit ≡ absolutes_meaning name list.now) }
    {
        let list = Arc::new(alloc, Absolutes::of_list(alloc, list)?)?;
        Ok(AbsoluteUnit { name, list })
    }
}

/// The group of some instances that depend on others, if there are any.
pub(crate) fn one_group(
    alloc: Global,
    members: &[InstId],
    deps: Vec<InstId>,
) -> Result<Groups, AllocError>
    ensures { IfOk result (λ groups. groups ≡ record { members = members.now; deps = deps.items } ∷ []) }
{
    let mut groups = Vec::new(alloc);
    groups.push(Group {
        members: Items::from_vec(members.to_vec(alloc)?),
        deps: Items::from_vec(deps),
    })?;
    Ok(Items::from_vec(groups))
}

impl AbsoluteUnit {
    /// The one group of its instances, which depend on nothing.
    pub(crate) fn groups(&self, alloc: Global, own: &[InstId]) -> Result<Groups, AllocError>
        ensures { IfOk result (λ groups. groups ≡ group_of own.now []) }
    {
        if own.is_empty() {
            return Ok(Items::new(alloc));
        }
        one_group(alloc, own, Vec::new(alloc))
    }
}

// What a session asks of it, as of any unit. It looks nothing up, so it is never asked for an external.
impl AbsoluteUnit {
    /// The facts that hold of every unit.
    pub(crate) fn known(&self)
        ensures { IsLawful (absolute_unit_meaning self.now) }
    {
        self.list.known();
    }

    /// How many names it offers.
    pub(crate) fn count(&self) -> u32
        ensures { result ≡ length (absolute_unit_meaning self.now).offers }
    {
        self.list.count()
    }

    /// The name that it offers at `k`, and its flags.
    pub(crate) fn offer(&self, k: u32) -> (NameId, SymFlags)
        requires { k < length (absolute_unit_meaning self.now).offers }
        ensures { slice_get (absolute_unit_meaning self.now).offers k ≡ Some result }
    {
        let (name, _) = self.list.symbol(k);
        (name, ABSOLUTE_FLAGS)
    }

    /// Another handle to the same unit.
    pub(crate) fn share(&self) -> Result<AbsoluteUnit, AllocError>
        ensures { IfOk result (λ other. absolute_unit_meaning other ≡ absolute_unit_meaning self.now) }
    {
        Ok(AbsoluteUnit {
            name: self.name,
            list: Arc::try_clone(&self.list)?,
        })
    }

    /// The address of the name offered at `k`, wherever the unit is.
    pub(crate) fn address(&self, k: u32) -> u64
        requires { k < length (absolute_unit_meaning self.now).offers }
        ensures { result ≡ (absolute_unit_meaning self.now).address k 0 }
    {
        let (_, address) = self.list.symbol(k);
        address
    }
}
