ghost use Rattle.std.specs.Prelude.{◌≡◌, ◌++◌, ◌∷◌, [], map, slice_get, option_and_then, IfOk, OnOk};
ghost use Rattle.std.specs.Option.{option_map_or};
ghost use Rattle.session_model.specs.Answer.{alias_cycle};
ghost use Rattle.session_model.specs.Change.{link_matches};
ghost use Rattle.session_model.specs.Plain.{is_waiting};
ghost use Rattle.session_model.specs.declared.rows.Query.{Query};
ghost use Rattle.session_plain.specs.Chains.{of_unit, instances_in, followed_list, chain_list, marked_cycle, MarksChains};
ghost use Rattle.session_plain.specs.Meant.{meant, unit_row};

use crate::plain::{PlainSession, PlainUnit};
use crate::reach::{mark, reaching};
use crate::units::alias;
use orc_ids::{InstId, InstList, Items, UnitId};
use session_model::{InstRow, Query, Reply, UnitKind, UnitPhase};
use std::alloc::{AllocError, Global};

fn keep_instance(all: &mut Vec<InstId>, found: Option<InstId>) -> Result<(), AllocError>
    ensures { OnOk result (all.new.items ≡ all.old.items ++ instances_in (found ∷ [])) }
{
    if let Some(i) = found {
        all.push(i)?;
    }
    Ok(())
}

/// The instances that were matched.
fn instances(alloc: Global, matched: &[Option<InstId>]) -> Result<InstList, AllocError>
    ensures { IfOk result (λ all. all ≡ instances_in matched.now) }
{
    let mut all = Vec::new(alloc);
    for found in matched {
        keep_instance(&mut all, *found)?;
    }
    Ok(Items::from_vec(all))
}

/// What the query matched, if there is one.
fn linked(alloc: Global, queries: &[Query], query: Option<u32>) -> Result<InstList, AllocError>
    ensures { IfOk result (λ all. all ≡ option_map_or (λ (q : Query). instances_in q.matched) (option_and_then (slice_get queries.now) query) []) }
{
    match query {
        None => Ok(Items::new(alloc)),
        Some(k) => match queries.get(k as usize) {
            None => Ok(Items::new(alloc)),
            Some(q) => instances(alloc, q.matched.as_slice()),
        },
    }
}

/// What the link query of the unit matched, if the unit is an alias that waits for it.
fn followed<U: UnitKind>(
    alloc: Global,
    queries: &[Query],
    x: &PlainUnit<U>,
) -> Result<InstList, AllocError>
    ensures { IfOk result (λ all. all ≡ followed_list queries.now (unit_row U.meaning x.now)) }
{
    if alias(x) && waiting(x.phase) {
        linked(alloc, queries, x.query)
    } else {
        Ok(Items::new(alloc))
    }
}

fn waiting(phase: UnitPhase) -> bool
    ensures { result ≡ is_waiting phase }
{
    matches!(phase, UnitPhase::Waiting)
}

/// What follows an instance of this row.
fn chain_of<U: UnitKind>(
    alloc: Global,
    s: &PlainSession<U>,
    row: &InstRow,
) -> Result<InstList, AllocError>
    ensures { IfOk result (λ all. all ≡ chain_list (meant U.meaning s.now).units s.now.queries.items row.now) }
{
    match s.units.get(row.unit.0 as usize) {
        None => Ok(Items::new(alloc)),
        Some(x) => followed(alloc, &s.queries, x),
    }
}

/// What follows each instance.
fn chain_edges<U: UnitKind>(alloc: Global, s: &PlainSession<U>) -> Result<Vec<InstList>, AllocError>
    ensures { IfOk result (λ edges. edges.items ≡ map (chain_list (meant U.meaning s.now).units s.now.queries.items) s.now.rows.items) }
{
    let mut edges = Vec::new(alloc);
    for row in &s.rows {
        edges.push(chain_of(alloc, s, row)?)?;
    }
    Ok(edges)
}

/// For each row whether it is one of the unit, present or not.
fn of_unit_marks(alloc: Global, rows: &[InstRow], u: UnitId) -> Result<Vec<bool>, AllocError>
    ensures { IfOk result (λ marks. marks.items ≡ map (of_unit u.0) rows.now) }
{
    let mut marks = Vec::new(alloc);
    for row in rows {
        marks.push(row.unit.0 == u.0)?;
    }
    Ok(marks)
}

/// For each instance whether the chain from it comes to one of the unit.
fn chain_marks<U: UnitKind>(
    alloc: Global,
    s: &PlainSession<U>,
    u: UnitId,
) -> Result<Vec<bool>, AllocError>
    ensures { IfOk result (λ marks. MarksChains (meant U.meaning s.now) u.0 marks.items) }
{
    let edges = chain_edges(alloc, s)?;
    let firsts = of_unit_marks(alloc, &s.rows, u)?;
    let marks = reaching(alloc, &edges, &firsts, false)?;
    Ok(marks)
}

fn first_cycle(marks: &[bool], found: &[InstId]) -> Option<Reply>
    ensures { result ≡ marked_cycle marks.now found.now }
{
    for i in found {
        if mark(marks, false, *i) {
            return Some(Reply::AliasCycle(*i));
        }
    }
    None
}

/// The answer AliasCycle for the first instance that the target of an alias matched from which the
/// chain of waiting aliases comes back to it.
pub fn cycle_reply<U: UnitKind>(
    alloc: Global,
    s: &PlainSession<U>,
    u: UnitId,
    x: &PlainUnit<U>,
    found: &[Option<InstId>],
) -> Result<Option<Reply>, AllocError>
    requires { found.now ≡ link_matches (meant U.meaning s.now) (unit_row U.meaning x.now) }
    ensures { IfOk result (λ reply. reply ≡ alias_cycle (meant U.meaning s.now) u.0 (unit_row U.meaning x.now)) }
{
    if !alias(x) {
        return Ok(None);
    }
    let marks = chain_marks(alloc, s, u)?;
    let targets = instances(alloc, found)?;
    let cycle = first_cycle(&marks, targets.as_slice());
    Ok(cycle)
}
