ghost use Rattle.std.specs.Prelude.{◌≡◌, ℕ, not, map, length, Bool, IfOk, true};
ghost use Rattle.std.specs.List.{list_any};
ghost use Rattle.session_model.specs.Plain.{emitted_at};
ghost use Rattle.session_model.specs.Reach.{deps_at};
ghost use Rattle.session_model.specs.declared.rows.InstRow.{InstRow};
ghost use Rattle.session_plain.specs.Marks.{mark_at, marked, next_marks, numbers, edges_at, dep_list, AreWithin, AreTests, MarksUnready};

use crate::phases::phase_emitted;
use orc_ids::{InstId, InstList, Items};
use session_model::{InstRow, Phase};
use std::alloc::{AllocError, Global};

/// The mark of an instance; those behind the list have the other one.
pub fn mark(marks: &[bool], other: bool, i: InstId) -> bool
    ensures { result ≡ mark_at marks.now other i.0 }
{
    marks.get(i.0 as usize).copied().unwrap_or(other)
}

fn some_marked(to: &[InstId], marks: &[bool], other: bool) -> bool
    ensures { result ≡ list_any (mark_at marks.now other) (numbers to.now) }
{
    for i in to {
        if mark(marks, other, *i) {
            return true;
        }
    }
    false
}

fn is_marked(to: &[InstId], marks: &[bool], other: bool, first: bool) -> bool
    ensures { result ≡ marked marks.now other to.now first }
{
    first || some_marked(to, marks, other)
}

/// The marks after one more step.
fn step_marks(
    alloc: Global,
    edges: &[InstList],
    firsts: &[bool],
    marks: &[bool],
    other: bool,
) -> Result<Vec<bool>, AllocError>
    requires { length firsts.now ≡ length edges.now }
    ensures { IfOk result (λ next. next.items ≡ next_marks marks.now other edges.now firsts.now) }
{
    let mut next = Vec::new(alloc);
    for (k, to) in edges.iter().enumerate() {
        next.push(is_marked(to.as_slice(), marks, other, firsts[k]))?;
    }
    Ok(next)
}

fn copy_marks(alloc: Global, marks: &[bool]) -> Result<Vec<bool>, AllocError>
    ensures { IfOk result (λ copy. copy.items ≡ marks.now) }
{
    Ok(marks.to_vec(alloc)?)
}

/// The marks of all that reach one that is marked at first, over what follows each.
pub fn reaching(
    alloc: Global,
    edges: &[InstList],
    firsts: &[bool],
    other: bool,
) -> Result<Vec<bool>, AllocError>
    requires { length firsts.now ≡ length edges.now }
    ensures { IfOk result (λ marks. (test : ℕ → Bool) → AreTests (length edges.now) test firsts.now other → AreWithin (length edges.now) (length edges.now) (edges_at edges.now) test marks.items other) }
{
    let mut marks = copy_marks(alloc, firsts)?;
    for round in 0..edges.len() {
        marks = step_marks(alloc, edges, firsts, &marks, other)?;
    }
    Ok(marks)
}

fn deps_of(alloc: Global, phase: &Phase) -> Result<InstList, AllocError>
    ensures { IfOk result (λ deps. deps ≡ dep_list phase.now) }
{
    match phase {
        Phase::Emitted(_, deps) => Ok(Items::from_vec(deps.as_slice().to_vec(alloc)?)),
        _ => Ok(Items::new(alloc)),
    }
}

/// The dependencies recorded for each instance.
fn dep_edges(alloc: Global, rows: &[InstRow]) -> Result<Vec<InstList>, AllocError>
    ensures { IfOk result (λ edges. edges.items ≡ map (λ (r : InstRow). dep_list r.phase) rows.now) }
{
    let mut edges = Vec::new(alloc);
    for row in rows {
        edges.push(deps_of(alloc, &row.phase)?)?;
    }
    Ok(edges)
}

/// The marks of all instances that reach one that is marked at first, by recorded dependencies.
pub fn reaching_by_deps(
    alloc: Global,
    rows: &[InstRow],
    firsts: &[bool],
    other: bool,
) -> Result<Vec<bool>, AllocError>
    requires { length firsts.now ≡ length rows.now }
    ensures { IfOk result (λ marks. (test : ℕ → Bool) → AreTests (length rows.now) test firsts.now other → AreWithin (length rows.now) (length rows.now) (deps_at rows.now) test marks.items other) }
{
    let edges = dep_edges(alloc, rows)?;
    let marks = reaching(alloc, &edges, firsts, other)?;
    Ok(marks)
}

/// For each instance whether it isn't emitted.
fn unemitted(alloc: Global, rows: &[InstRow]) -> Result<Vec<bool>, AllocError>
    ensures { IfOk result (λ marks. AreTests (length rows.now) (λ j. not (emitted_at rows.now j)) marks.items true) }
{
    let mut marks = Vec::new(alloc);
    for row in rows {
        marks.push(!phase_emitted(&row.phase))?;
    }
    Ok(marks)
}

/// For each instance whether it isn't ready.
pub fn unready(alloc: Global, rows: &[InstRow]) -> Result<Vec<bool>, AllocError>
    ensures { IfOk result (λ marks. MarksUnready rows.now marks.items) }
{
    let firsts = unemitted(alloc, rows)?;
    let marks = reaching_by_deps(alloc, rows, &firsts, true)?;
    Ok(marks)
}
