ghost use Rattle.std.specs.Prelude.{◌≡◌, ◌<◌, ◌+◌, ◌^◌, ◌&&◌, ◌++◌, ◌∷◌, [], not, length, map, slice_get, nat_eq, OnOk, IfOk, drop, false, if◌then◌else◌};
ghost use Rattle.std.specs.Option.{option_map_or};
ghost use Rattle.session_model.specs.Lists.{numbered};
ghost use Rattle.session_model.specs.Change.{replaced_by, is_replaced, unreplaced_row, new_row, new_rows, loses_name, without_replaced, defined};
ghost use Rattle.session_plain.specs.Meant.{meant, unit_row};
ghost use Rattle.session_plain.specs.Defines.{lost_name, left_flag};

use crate::defines::{keeps, kept_flags};
use crate::plain::{PlainSession, PlainUnit};
use orc_ids::{DylibId, Items, NameId, SymFlags, TrackId, UnitId};
use session_model::{InstRow, Phase, UnitKind, UnitPhase, Verdict, Verdicts};
use std::alloc::{AllocError, Global};

fn replaces(verdict: Verdict, i: usize) -> bool
    ensures { result ≡ option_map_or (nat_eq i) (replaced_by verdict) false }
{
    match verdict {
        Verdict::Replaces(old) => i == old.0 as usize,
        _ => false,
    }
}

/// Whether one of the names replaces the instance.
fn replaced(found: &[Verdict], i: usize) -> bool
    ensures { result ≡ is_replaced found.now i }
{
    for verdict in found {
        if replaces(*verdict, i) {
            return true;
        }
    }
    false
}

fn hide_row(row: &mut InstRow, gone: bool)
    ensures { row.new ≡ record row.old { present = row.old.present && not gone } }
{
    if gone {
        row.present = false;
    }
}

/// The instances that are replaced are no longer present.
fn hide_replaced(rows: &mut [InstRow], found: &[Verdict])
    ensures { rows.new ≡ numbered (unreplaced_row found.now) 0 rows.old }
{
    for (k, row) in rows.iter_mut().enumerate() {
        hide_row(row, replaced(found, k));
    }
}

fn row_of_offer(d: DylibId, u: UnitId, k: u32, offer: (NameId, SymFlags)) -> InstRow
    ensures { result ≡ new_row d.0 u.0 k offer }
{
    InstRow {
        dylib: d,
        name: offer.0,
        flags: offer.1,
        unit: u,
        offer: k,
        present: true,
        phase: Phase::Unsearched,
    }
}

fn verdict_at(found: &[Verdict], k: u32) -> Option<Verdict>
    ensures { result ≡ slice_get found.now k }
{
    found.get(k as usize).copied()
}

fn add_row(rows: &mut Vec<InstRow>, row: InstRow, kept: bool) -> Result<(), AllocError>
    ensures { OnOk result (rows.new.items ≡ (if kept then rows.old.items ++ row ∷ [] else rows.old.items)) }
{
    if kept {
        rows.push(row)?;
    }
    Ok(())
}

/// The row of the name offered at `k` is added, if the unit keeps the name.
fn offer_row<U: UnitKind>(
    rows: &mut Vec<InstRow>,
    d: DylibId,
    u: UnitId,
    unit: &U,
    k: u32,
    found: &[Verdict],
) -> Result<(), AllocError>
    requires { k < length (U.meaning unit.now).offers }
    ensures { OnOk result (rows.new.items ++ new_rows d.0 u.0 (k + 1) (drop (k + 1) (U.meaning unit.now).offers) (drop (k + 1) found.now) ≡ rows.old.items ++ new_rows d.0 u.0 k (drop k (U.meaning unit.now).offers) (drop k found.now)) }
{
    let offer = unit.offer(k);
    if let Some(verdict) = verdict_at(found, k) {
        add_row(rows, row_of_offer(d, u, k, offer), keeps(verdict))?;
    }
    Ok(())
}

/// The rows of the names that stay are added, in order.
fn offer_rows<U: UnitKind>(
    rows: &mut Vec<InstRow>,
    d: DylibId,
    u: UnitId,
    unit: &U,
    found: &[Verdict],
) -> Result<(), AllocError>
    ensures { OnOk result (rows.new.items ≡ rows.old.items ++ new_rows d.0 u.0 0 (U.meaning unit.now).offers found.now) }
{
    for k in 0..unit.count() {
        offer_row(rows, d, u, unit, k, found)?;
    }
    Ok(())
}

/// Whether the row is of the unit's name, and replaced.
fn loses_by(found: &[Verdict], i: usize, row: &InstRow, u: usize, k: usize) -> bool
    ensures { result ≡ lost_name found.now u k i row.now }
{
    replaced(found, i) && row.unit.0 as usize == u && row.offer as usize == k
}

/// Whether the name of the unit at this number is replaced.
fn loses(rows: &[InstRow], found: &[Verdict], u: usize, k: usize) -> bool
    ensures { result ≡ loses_name rows.now found.now u k }
{
    for (i, row) in rows.iter().enumerate() {
        if loses_by(found, i, row, u, k) {
            return true;
        }
    }
    false
}

fn flag_left(rows: &[InstRow], found: &[Verdict], u: usize, k: usize, flag: bool) -> bool
    ensures { result ≡ left_flag rows.now found.now u k flag }
{
    flag && !loses(rows, found, u, k)
}

/// Which names of the unit at this number stay its own.
fn live_left(
    alloc: Global,
    rows: &[InstRow],
    found: &[Verdict],
    u: usize,
    live: &[bool],
) -> Result<Items<bool>, AllocError>
    ensures { IfOk result (λ left. left ≡ numbered (left_flag rows.now found.now u) 0 live.now) }
{
    let mut left = Vec::new(alloc);
    for (k, flag) in live.iter().enumerate() {
        left.push(flag_left(rows, found, u, k, *flag))?;
    }
    Ok(Items::from_vec(left))
}

fn unit_left<U: UnitKind>(
    alloc: Global,
    rows: &[InstRow],
    found: &[Verdict],
    u: usize,
    x: &mut PlainUnit<U>,
) -> Result<(), AllocError>
    ensures { OnOk result (unit_row U.meaning x.new ≡ without_replaced rows.now found.now u (unit_row U.meaning x.old)) }
{
    let left = live_left(alloc, rows, found, u, x.live.as_slice())?;
    x.live = left;
    Ok(())
}

/// The units no longer offer their replaced names. The rows are those before they are hidden.
fn units_left<U: UnitKind>(
    alloc: Global,
    rows: &[InstRow],
    found: &[Verdict],
    units: &mut [PlainUnit<U>],
) -> Result<(), AllocError>
    ensures { OnOk result (map (unit_row U.meaning) units.new ≡ numbered (without_replaced rows.now found.now) 0 (map (unit_row U.meaning) units.old)) }
{
    for (u, x) in units.iter_mut().enumerate() {
        unit_left(alloc, rows, found, u, x)?;
    }
    Ok(())
}

/// The unit that is defined, with the names that it keeps.
fn unit_kept<U: UnitKind>(unit: U, t: TrackId, live: Vec<bool>) -> PlainUnit<U>
    ensures { unit_row U.meaning result ≡ record { meaning = U.meaning unit; tracker = t.0; live = live.items; phase = UnitPhase.Unclaimed; seat = None; base = None; query = None; bound = None } }
{
    PlainUnit {
        unit,
        tracker: t.0,
        live: Items::from_vec(live),
        phase: UnitPhase::Unclaimed,
        seat: None,
        base: None,
        query: None,
        bound: None,
    }
}

/// There is the unit, with the names that its verdicts keep.
pub fn define<U: UnitKind>(
    alloc: Global,
    s: &mut PlainSession<U>,
    d: DylibId,
    t: TrackId,
    unit: U,
    found: &[Verdict],
) -> Result<(), AllocError>
    requires { length s.old.units.items < 2 ^ 32 }
    ensures { OnOk result (meant U.meaning s.new ≡ defined d.0 t.0 (U.meaning unit) found.now (meant U.meaning s.old)) }
{
    let u = UnitId(s.units.as_slice().len() as u32);
    units_left(alloc, &s.rows, found, &mut s.units)?;
    hide_replaced(&mut s.rows, found);
    offer_rows(&mut s.rows, d, u, &unit, found)?;
    let live = kept_flags(alloc, found)?;
    s.units.push(unit_kept(unit, t, live))?;
    Ok(())
}
