//! What each change makes of the rows: those of one unit, which stand in its span, or single ones.

ghost use Rattle.std.specs.Prelude.{◌≡◌, ◌<◌, ◌+◌, ◌≤◌, ◌^◌, ◌∷◌, ◌++◌, [], ℕ, List, map, length, slice_get, Some, IfOk, OnOk, unwrap_or, vec_capacity, true, false, if◌then◌else◌};
ghost use Rattle.orc_ids.specs.declared.groups.Group.{Group};
ghost use Rattle.session_model.specs.Lists.{numbered};
ghost use Rattle.session_model.specs.Plain.{is_owned, own_rows};
ghost use Rattle.session_model.specs.Change.{claimed_row, emitted_row};
ghost use Rattle.session_model.specs.declared.rows.InstRow.{InstRow};
ghost use Rattle.instances.specs.Groups.{HasDeps};
ghost use Rattle.instances.specs.Rows.{addressed_row};
ghost use Rattle.instances.specs.Spans.{IsSpan};
ghost use Rattle.instances.specs.Table.{fresh_rows, removed_row, replaced_row, failed_row, AreChanged};

use crate::groups::DepsTable;
use crate::row::{claim_row, emit_row, fail_row, remove_row, replace_row, resolve_row};
use crate::span::Span;
use orc_ids::{DylibId, InstId, InstList, Items, NameId, SymFlags, UnitId};
use session_model::{InstRow, Phase, UnitKind};
use std::alloc::{AllocError, Global};
use std::mem::replace;

/// The unit's unsearched instances become Claimed.
pub fn claim_rows(rows: &mut Vec<InstRow>, u: UnitId, span: Span)
    requires { IsSpan rows.old.items u.0 span.first span.count }
    ensures rows { rows.new.items ≡ map (claimed_row u.0) rows.old.items }
    ensures capacity { vec_capacity rows.new ≡ vec_capacity rows.old }
{
    let first = span.first as usize;
    for i in first..first + span.count as usize {
        claim_row(&mut rows[i], u);
    }
}

/// Each of the unit's instances gets its address, with the unit at this base.
pub fn resolve_rows<U: UnitKind>(
    rows: &mut Vec<InstRow>,
    u: UnitId,
    span: Span,
    unit: &U,
    base: u64,
)
    requires span { IsSpan rows.old.items u.0 span.first span.count }
    requires offers { (i : ℕ) (r : InstRow) → slice_get rows.old.items i ≡ Some r → is_owned u.0 r ≡ true → r.offer < length (U.meaning unit.now).offers }
    ensures rows { rows.new.items ≡ map (addressed_row u.0 (λ k. (U.meaning unit.now).address k base)) rows.old.items }
    ensures capacity { vec_capacity rows.new ≡ vec_capacity rows.old }
{
    let first = span.first as usize;
    for i in first..first + span.count as usize {
        resolve_row(&mut rows[i], u, unit, base);
    }
}

/// Each of the unit's instances is Emitted, with its group's dependencies.
pub fn emit_rows(rows: &mut Vec<InstRow>, u: UnitId, first: u32, table: DepsTable)
    requires span { (count : ℕ) × IsSpan rows.old.items u.0 first count × (length table.items ≡ count) }
    ensures rows { (groups : List Group) → HasDeps groups first (length table.items) table.items → rows.new.items ≡ numbered (emitted_row u.0 groups) 0 rows.old.items }
    ensures capacity { vec_capacity rows.new ≡ vec_capacity rows.old }
{
    let mut table = table;
    let first = first as usize;
    for j in 0..table.as_slice().len() {
        let deps = replace(&mut table[j], None);
        emit_row(&mut rows[first + j], u, deps);
    }
}

/// None of the unit's instances is present any longer.
pub fn remove_rows(rows: &mut Vec<InstRow>, u: UnitId, span: Span)
    requires { IsSpan rows.old.items u.0 span.first span.count }
    ensures rows { rows.new.items ≡ map (removed_row u.0) rows.old.items }
    ensures capacity { vec_capacity rows.new ≡ vec_capacity rows.old }
{
    let first = span.first as usize;
    for i in first..first + span.count as usize {
        remove_row(&mut rows[i], u);
    }
}

/// The instance is no longer present, if there is one.
fn replace_at(rows: &mut Vec<InstRow>, i: InstId)
    ensures rows { AreChanged (replaced_row (i ∷ [])) rows.old.items rows.new.items }
    ensures capacity { vec_capacity rows.new ≡ vec_capacity rows.old }
{
    if (i.0 as usize) < rows.len() {
        replace_row(&mut rows[i.0 as usize]);
    }
}

/// None of these instances is present any longer.
pub fn replace_rows(rows: &mut Vec<InstRow>, gone: &[InstId])
    ensures rows { AreChanged (replaced_row gone.now) rows.old.items rows.new.items }
    ensures capacity { vec_capacity rows.new ≡ vec_capacity rows.old }
{
    for i in gone {
        replace_at(rows, *i);
    }
}

/// The instance fails, if there is one.
fn fail_at(rows: &mut Vec<InstRow>, i: InstId)
    ensures rows { AreChanged (failed_row (i ∷ [])) rows.old.items rows.new.items }
    ensures capacity { vec_capacity rows.new ≡ vec_capacity rows.old }
{
    if (i.0 as usize) < rows.len() {
        fail_row(&mut rows[i.0 as usize]);
    }
}

/// Each of these instances fails.
pub fn fail_rows(rows: &mut Vec<InstRow>, hit: &[InstId])
    ensures rows { AreChanged (failed_row hit.now) rows.old.items rows.new.items }
    ensures capacity { vec_capacity rows.new ≡ vec_capacity rows.old }
{
    for i in hit {
        fail_at(rows, *i);
    }
}

fn push_own(own: &mut Vec<InstId>, row: &InstRow, u: UnitId, i: usize) -> Result<(), AllocError>
    requires { i < 2 ^ 32 }
    ensures { OnOk result (own.new.items ≡ (if is_owned u.0 row.now then own.old.items ++ record { 0 = i } ∷ [] else own.old.items)) }
{
    if row.present && row.unit.0 == u.0 {
        own.push(InstId(i as u32))?;
    }
    Ok(())
}

/// The unit's present instances, in order.
pub fn own_in(
    alloc: Global,
    rows: &[InstRow],
    u: UnitId,
    span: Span,
) -> Result<InstList, AllocError>
    requires span { IsSpan rows.now u.0 span.first span.count }
    requires numbered { length rows.now < 2 ^ 32 }
    ensures { IfOk result (λ own. own ≡ own_rows u.0 0 rows.now) }
{
    let mut own = Vec::new(alloc);
    let first = span.first as usize;
    for i in first..first + span.count as usize {
        push_own(&mut own, &rows[i], u, i)?;
    }
    Ok(Items::from_vec(own))
}

/// Whether the name at this place stays.
fn is_live(live: &[bool], at: usize) -> bool
    ensures { result ≡ unwrap_or (slice_get live.now at) false }
{
    match live.get(at) {
        Some(flag) => *flag,
        None => false,
    }
}

/// Adds the row of an offered name, if it stays; takes no memory.
fn push_fresh(
    rows: &mut Vec<InstRow>,
    d: DylibId,
    u: UnitId,
    k: u32,
    offer: (NameId, SymFlags),
    live: bool,
)
    requires { length rows.old.items < vec_capacity rows.old }
    ensures rows { rows.new.items ≡ rows.old.items ++ fresh_rows d.0 u.0 k (offer ∷ []) (live ∷ []) }
    ensures capacity { vec_capacity rows.new ≡ vec_capacity rows.old }
{
    if live {
        rows.push_reserved(InstRow {
            dylib: d,
            name: offer.0,
            flags: offer.1,
            unit: u,
            offer: k,
            present: true,
            phase: Phase::Unsearched,
        });
    }
}

/// Adds the rows of the offered names that stay; takes no memory.
pub fn push_rows(
    rows: &mut Vec<InstRow>,
    d: DylibId,
    u: UnitId,
    offers: &[(NameId, SymFlags)],
    live: &[bool],
)
    requires room { length rows.old.items + length offers.now ≤ vec_capacity rows.old }
    requires few { length offers.now < 2 ^ 32 }
    requires flags { length live.now ≡ length offers.now }
    ensures rows { rows.new.items ≡ rows.old.items ++ fresh_rows d.0 u.0 0 offers.now live.now }
    ensures capacity { vec_capacity rows.new ≡ vec_capacity rows.old }
{
    for (k, offer) in offers.iter().enumerate() {
        push_fresh(rows, d, u, k as u32, *offer, is_live(live, k));
    }
}
