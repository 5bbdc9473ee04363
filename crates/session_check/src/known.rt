ghost use Rattle.std.specs.Prelude.{◌≡◌, ◌↔◌, ℕ, ◌<◌, ◌^◌, ◌++◌, ◌∷◌, [], true, false, IsTrue, IfOk, IfSome, IfNone, OnOk};
ghost use Rattle.std.specs.List.{list_any};
ghost use Rattle.session_model.specs.Meaning.{bound_instances};
ghost use Rattle.session_check.specs.Known.{Known, IsKnown, IsShape, alias_flags, is_of_name, names_differ};

use crate::sample::Sample;
use orc_ids::{
    DylibId, Group, Groups, InstId, InstList, Items, NameId, Place, Shape, SymFlags, UnitName,
    Wanted,
};
use session_model::UnitKind;
use std::alloc::{AllocError, Global};
use std::marker::Model;

/// A unit that is given by lists: the names that it offers, and the names that it looks up whichever
/// of its own are live. The name offered at `k` lies 8 bytes times `k` behind the unit's base, that of
/// an alias at it. Its instances make one group, which depends on all that its externals are bound to.
#[derive(Drop)]
pub struct KnownUnit {
    name: UnitName,
    offers: Vec<(NameId, SymFlags)>,
    shape: Option<Shape>,
    externals: Vec<Wanted>,
    refusal: Option<(Place, u32, i64)>,
    source: Option<DylibId>,
}

impl Model for KnownUnit {
    ghost use Rattle.session_check.specs.Known.{Known, IsKnown};

    ghost Value = { Known };

    ghost view = { λ u. record { name = u.name; offers = u.offers.items; shape = u.shape; externals = u.externals.items; refusal = u.refusal; source = u.source } };

    ghost invariant = { λ u. IsKnown (record { name = u.name; offers = u.offers.items; shape = u.shape; externals = u.externals.items; refusal = u.refusal; source = u.source }) };
}

fn is_named(offers: &[(NameId, SymFlags)], name: NameId) -> bool
    ensures { result ≡ list_any (is_of_name name) offers.now }
{
    for (offered, _) in offers {
        if offered.0 == name.0 {
            return true;
        }
    }
    false
}

/// Whether no name is offered twice.
fn all_differ(offers: &[(NameId, SymFlags)]) -> bool
    ensures { result ≡ names_differ offers.now }
{
    for (k, (name, _)) in offers.iter().enumerate() {
        if is_named(&offers[k + 1..], *name) {
            return false;
        }
    }
    true
}

fn is_power(align: u64) -> bool
    ensures { IsTrue result ↔ ((k : ℕ) × (align ≡ 2 ^ k)) }
{
    if align > 1 << 63 {
        return false;
    }
    align.next_power_of_two() == align
}

/// Whether so many are counted by 32 bits.
fn is_count(count: usize) -> bool
    ensures { IsTrue result ↔ (count < 2 ^ 32) }
{
    count <= u32::MAX as usize
}

/// Whether it is some memory, with an alignment that is a power of two.
fn is_shape(shape: Option<Shape>) -> bool
    ensures { IsTrue result ↔ IfSome shape IsShape }
{
    match shape {
        Some(shape) => 0 < shape.need && is_power(shape.align),
        None => true,
    }
}

fn keep_bound(all: &mut Vec<InstId>, found: Option<(InstId, u64)>) -> Result<(), AllocError>
    ensures { OnOk result (all.new.items ≡ all.old.items ++ bound_instances (found ∷ [])) }
{
    if let Some((i, _)) = found {
        all.push(i)?;
    }
    Ok(())
}

/// The instances that are bound.
fn instances(alloc: Global, bound: &[Option<(InstId, u64)>]) -> Result<InstList, AllocError>
    ensures { IfOk result (λ all. all ≡ bound_instances bound.now) }
{
    let mut all = Vec::new(alloc);
    for found in bound {
        keep_bound(&mut all, *found)?;
    }
    Ok(Items::from_vec(all))
}

impl KnownUnit {
    /// A unit of these parts. None where a name is offered twice, where the memory is of no bytes or
    /// aligned to no power of two, or where a list is longer than 32 bits count.
    pub fn new(
        name: UnitName,
        offers: Vec<(NameId, SymFlags)>,
        shape: Option<Shape>,
        externals: Vec<Wanted>,
        refusal: Option<(Place, u32, i64)>,
    ) -> Option<KnownUnit>
        ensures some { IfSome result (λ unit. unit ≡ record { name = name; offers = offers.items; shape = shape; externals = externals.items; refusal = refusal; source = None }) }
        ensures none { IfNone result (IsKnown (record { name = name; offers = offers.items; shape = shape; externals = externals.items; refusal = refusal; source = None }) → ⊥) }
    {
        let counted = is_count(offers.len()) && is_count(externals.len());
        if counted && all_differ(&offers) && is_shape(shape) {
            Some(KnownUnit {
                name,
                offers,
                shape,
                externals,
                refusal,
                source: None,
            })
        } else {
            None
        }
    }

    /// An alias: the unit of one name that stands for a name in another dylib.
    pub fn alias(
        alloc: Global,
        unit: UnitName,
        name: NameId,
        source: DylibId,
        target: NameId,
    ) -> Result<KnownUnit, AllocError>
        ensures { IfOk result (λ u. u ≡ record { name = unit; offers = (name, alias_flags) ∷ []; shape = None; externals = record { name = target; weak = false } ∷ []; refusal = None; source = Some source }) }
    {
        let flags = SymFlags {
            weak: false,
            common: false,
            exported: true,
            callable: false,
        };
        let wanted = Wanted {
            name: target,
            weak: false,
        };
        Ok(KnownUnit {
            name: unit,
            offers: vec![in alloc; (name, flags)]?,
            shape: None,
            externals: vec![in alloc; wanted]?,
            refusal: None,
            source: Some(source),
        })
    }
}

impl UnitKind for KnownUnit {
    ghost use Rattle.session_check.specs.Known.{known_meaning};

    ghost meaning = { λ u. known_meaning u };

    fn known(&self) {
        let _name = self.name;
    }

    fn count(&self) -> u32 {
        self.offers.len() as u32
    }

    fn offer(&self, k: u32) -> (NameId, SymFlags) {
        self.offers[k as usize]
    }

    fn share(&self, alloc: Global) -> Result<KnownUnit, AllocError> {
        Ok(KnownUnit {
            name: self.name,
            offers: self.offers.to_vec(alloc)?,
            shape: self.shape,
            externals: self.externals.to_vec(alloc)?,
            refusal: self.refusal,
            source: self.source,
        })
    }

    fn source(&self) -> Option<DylibId> {
        self.source
    }

    fn name(&self) -> UnitName {
        self.name
    }

    fn shape(&self, _live: &[bool]) -> Option<Shape> {
        self.shape
    }

    fn address(&self, k: u32, base: u64) -> u64 {
        if self.source.is_some() {
            base
        } else {
            base.wrapping_add(8 * k as u64)
        }
    }

    fn externals(&self, alloc: Global, _live: &[bool]) -> Result<Vec<Wanted>, AllocError> {
        self.externals.as_slice().to_vec(alloc)
    }
}

impl Sample for KnownUnit {
    fn groups(
        &self,
        alloc: Global,
        _live: &[bool],
        _base: u64,
        bound: &[Option<(InstId, u64)>],
        own: &[InstId],
    ) -> Result<Groups, AllocError> {
        let group = Group {
            members: Items::from_vec(own.to_vec(alloc)?),
            deps: instances(alloc, bound)?,
        };
        Ok(Items::from_vec(vec![in alloc; group]?))
    }

    fn refusal(
        &self,
        _live: &[bool],
        _base: u64,
        _bound: &[Option<(InstId, u64)>],
    ) -> Option<(Place, u32, i64)> {
        self.refusal
    }
}
