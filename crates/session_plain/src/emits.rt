ghost use Rattle.std.specs.Prelude.{◌≡◌, ◌<◌, ℕ, ◌==◌, true, length, map, slice_get, Some, OnOk, IfOk, unwrap_or};
ghost use Rattle.std.specs.List.{list_any};
ghost use Rattle.orc_ids.specs.declared.ids.InstId.{InstId};
ghost use Rattle.session_model.specs.Lists.{numbered, first_some};
ghost use Rattle.session_model.specs.Plain.{is_owned, UnitRow};
ghost use Rattle.session_model.specs.Change.{deps_in, emitted, emitted_row, resolved, resolved_row, resolved_unit};
ghost use Rattle.session_model.specs.declared.rows.InstRow.{InstRow};
ghost use Rattle.session_plain.specs.Meant.{meant, unit_row, OffersFit};
ghost use Rattle.session_plain.specs.Rows.{group_deps};

use crate::calls::unit_at;
use crate::phases::{address_of, owned};
use crate::plain::{PlainSession, PlainUnit};
use crate::units::{Step, alias, bound_to, step_in};
use orc_ids::{Group, InstId, InstList, Items, UnitId};
use session_model::{DepList, InstRow, Phase, UnitKind};
use std::alloc::{AllocError, Global};

fn is_member(members: &[InstId], i: usize) -> bool
    ensures { result ≡ list_any (λ (j : InstId). j.0 == i) members.now }
{
    for j in members {
        if j.0 as usize == i {
            return true;
        }
    }
    false
}

/// The group's dependencies, if the instance is in it.
fn deps_in_group(alloc: Global, group: &Group, i: usize) -> Result<Option<InstList>, AllocError>
    ensures { IfOk result (λ found. found ≡ group_deps i group.now) }
{
    if is_member(group.members.as_slice(), i) {
        Ok(Some(Items::from_vec(group.deps.as_slice().to_vec(alloc)?)))
    } else {
        Ok(None)
    }
}

fn first_deps(alloc: Global, groups: &[Group], i: usize) -> Result<Option<InstList>, AllocError>
    ensures { IfOk result (λ found. found ≡ first_some (group_deps i) groups.now) }
{
    for group in groups {
        let found = deps_in_group(alloc, group, i)?;
        if found.is_some() {
            return Ok(found);
        }
    }
    Ok(None)
}

/// The dependencies of the group that an instance is in.
fn deps_of(alloc: Global, groups: &[Group], i: usize) -> Result<InstList, AllocError>
    ensures { IfOk result (λ deps. deps ≡ deps_in groups.now i) }
{
    match first_deps(alloc, groups, i)? {
        Some(deps) => Ok(deps),
        None => Ok(Items::new(alloc)),
    }
}

/// The row's instance is Emitted, if it is the unit's.
fn emit_row(
    alloc: Global,
    row: &mut InstRow,
    u: UnitId,
    groups: &[Group],
    i: usize,
) -> Result<(), AllocError>
    ensures { OnOk result (row.new ≡ emitted_row u.0 groups.now i row.old) }
{
    if owned(u.0, row) {
        let deps = DepList::from_items(alloc, deps_of(alloc, groups, i)?)?;
        let address = address_of(&row.phase).unwrap_or(0);
        row.phase = Phase::Emitted(address, deps);
    }
    Ok(())
}

fn emit_rows(
    alloc: Global,
    rows: &mut [InstRow],
    u: UnitId,
    groups: &[Group],
) -> Result<(), AllocError>
    ensures { OnOk result (rows.new ≡ numbered (emitted_row u.0 groups.now) 0 rows.old) }
{
    for (k, row) in rows.iter_mut().enumerate() {
        emit_row(alloc, row, u, groups, k)?;
    }
    Ok(())
}

/// Each of the unit's instances is Emitted, with its group's dependencies.
pub fn emit<U: UnitKind>(
    alloc: Global,
    s: &mut PlainSession<U>,
    u: UnitId,
    groups: &[Group],
) -> Result<(), AllocError>
    ensures { OnOk result (meant U.meaning s.new ≡ emitted u.0 groups.now (meant U.meaning s.old)) }
{
    emit_rows(alloc, &mut s.rows, u, groups)?;
    step_in(&mut s.units, u, Step::End);
    Ok(())
}

/// The unit's base once it is resolved.
fn resolved_base<U: UnitKind>(x: &PlainUnit<U>) -> u64
    ensures { result ≡ unwrap_or (resolved_unit (unit_row U.meaning x.now)).base 0 }
{
    if alias(x) {
        bound_to(x)
    } else {
        x.base.unwrap_or(0)
    }
}

/// The row's instance gets its address, if it is the unit's.
fn resolve_row<U: UnitKind>(row: &mut InstRow, u: UnitId, x: &PlainUnit<U>, base: u64)
    requires offered { is_owned u.0 row.old ≡ true → row.old.offer < length (U.meaning x.now.unit).offers }
    requires base { base ≡ unwrap_or (resolved_unit (unit_row U.meaning x.now)).base 0 }
    ensures { row.new ≡ resolved_row u.0 (resolved_unit (unit_row U.meaning x.now)) row.old }
{
    if owned(u.0, row) {
        row.phase = Phase::Resolved(x.unit.address(row.offer, base));
    }
}

fn resolve_rows<U: UnitKind>(rows: &mut [InstRow], u: UnitId, x: &PlainUnit<U>)
    requires { (i : ℕ) (r : InstRow) → slice_get rows.old i ≡ Some r → is_owned u.0 r ≡ true → r.offer < length (U.meaning x.now.unit).offers }
    ensures { rows.new ≡ map (resolved_row u.0 (resolved_unit (unit_row U.meaning x.now))) rows.old }
{
    let base = resolved_base(x);
    for row in rows.iter_mut() {
        resolve_row(row, u, x, base);
    }
}

fn resolve_all<U: UnitKind>(rows: &mut Vec<InstRow>, u: UnitId, x: &PlainUnit<U>)
    requires { (i : ℕ) (r : InstRow) → slice_get rows.old.items i ≡ Some r → is_owned u.0 r ≡ true → r.offer < length (U.meaning x.now.unit).offers }
    ensures { rows.new.items ≡ map (resolved_row u.0 (resolved_unit (unit_row U.meaning x.now))) rows.old.items }
{
    resolve_rows(rows, u, x);
}

/// Each of the unit's instances gets its address.
pub fn resolve<U: UnitKind>(s: &mut PlainSession<U>, u: UnitId)
    requires { OffersFit U.meaning s.old.units.items s.old.rows.items }
    ensures { meant U.meaning s.new ≡ resolved u.0 (meant U.meaning s.old) }
{
    if let Some(x) = unit_at(&s.units, u) {
        resolve_all(&mut s.rows, u, x);
        step_in(&mut s.units, u, Step::Resolve);
    }
}
