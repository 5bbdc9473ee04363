ghost use Rattle.std.specs.Prelude.{◌≡◌, ◌&&◌, Bool, ℕ, true, false, map, not, filter, OnOk, IfOk, if◌then◌else◌, ◌++◌, ◌∷◌, []};
ghost use Rattle.session_model.specs.Lists.{numbered, changed_at};
ghost use Rattle.session_model.specs.Plain.{is_owned_at};
ghost use Rattle.session_model.specs.Change.{failed, moved, removed, hits_failed, job_unit, removed_unit, removed_generator, moved_unit, moved_generator, gone_tracker};
ghost use Rattle.session_model.specs.declared.rows.Phase.TheVariants as phase;
ghost use Rattle.session_plain.specs.Marks.{mark_at};
ghost use Rattle.session_plain.specs.Meant.{meant, unit_row, gen_row};
ghost use Rattle.session_plain.specs.Rows.{marked_row, is_tracked_row, is_tracked, hidden_row, tracked_roots, removed_rows, stays_listed};

use crate::plain::{PlainGenerator, PlainSession, PlainUnit};
use crate::reach::{reaching_by_deps, unready};
use crate::rows::unit_rows;
use crate::units::{Step, step_in};
use orc_ids::{TrackId, UnitId};
use session_model::{InstRow, Job, Phase, Track, UnitKind, UnitPhase};
use std::alloc::{AllocError, Global};

fn fail_row(row: &mut InstRow, hit: bool)
    ensures { row.new ≡ record row.old { phase = if hit then phase.Failed else row.old.phase } }
{
    if hit {
        row.phase = Phase::Failed;
    }
}

fn marked_at(marks: &[bool], other: bool, k: usize) -> bool
    ensures { result ≡ mark_at marks.now other k }
{
    marks.get(k).copied().unwrap_or(other)
}

fn both_marked(unready: &[bool], reaching: &[bool], k: usize) -> bool
    ensures { result ≡ (mark_at unready.now true k && mark_at reaching.now false k) }
{
    marked_at(unready, true, k) && marked_at(reaching, false, k)
}

/// The rows that both have marked fail.
fn fail_rows(rows: &mut [InstRow], unready: &[bool], reaching: &[bool])
    ensures { rows.new ≡ numbered (marked_row unready.now reaching.now) 0 rows.old }
{
    for (k, row) in rows.iter_mut().enumerate() {
        fail_row(row, both_marked(unready, reaching, k));
    }
}

/// The rows that aren't ready, and those that reach a root.
#[derive(Drop)]
struct Hits {
    unready: Vec<bool>,
    reaching: Vec<bool>,
}

/// What a failure of the unit takes along.
fn unit_hits(alloc: Global, rows: &[InstRow], u: UnitId) -> Result<Hits, AllocError>
    ensures { IfOk result (λ hits. numbered (marked_row hits.unready.items hits.reaching.items) 0 rows.now ≡ hits_failed (is_owned_at u.0 rows.now) rows.now) }
{
    let waiting = unready(alloc, rows)?;
    let roots = unit_rows(alloc, rows, u)?;
    let hit = reaching_by_deps(alloc, rows, &roots, false)?;
    Ok(Hits {
        unready: waiting,
        reaching: hit,
    })
}

/// For each row whether it is one of the tracker's, and not ready.
fn tracker_rows<U: UnitKind>(
    alloc: Global,
    rows: &[InstRow],
    units: &[PlainUnit<U>],
    t: TrackId,
    unready: &[bool],
) -> Result<Vec<bool>, AllocError>
    ensures { IfOk result (λ marks. marks.items ≡ numbered (λ i r. is_tracked_row (map (unit_row U.meaning) units.now) t.0 r && mark_at unready.now true i) 0 rows.now) }
{
    let mut marks = Vec::new(alloc);
    for (k, row) in rows.iter().enumerate() {
        marks.push(tracked_row(row, units, t) && marked_at(unready, true, k))?;
    }
    Ok(marks)
}

/// Whether the unit is of the tracker.
fn tracked<U: UnitKind>(units: &[PlainUnit<U>], t: TrackId, u: UnitId) -> bool
    ensures { result ≡ is_tracked (map (unit_row U.meaning) units.now) t.0 u.0 }
{
    match units.get(u.0 as usize) {
        Some(x) => x.tracker == t.0,
        None => false,
    }
}

fn tracked_row<U: UnitKind>(row: &InstRow, units: &[PlainUnit<U>], t: TrackId) -> bool
    ensures { result ≡ is_tracked_row (map (unit_row U.meaning) units.now) t.0 row.now }
{
    row.present && tracked(units, t, row.unit)
}

/// What a removal of the tracker takes along.
fn tracker_hits<U: UnitKind>(
    alloc: Global,
    rows: &[InstRow],
    units: &[PlainUnit<U>],
    t: TrackId,
) -> Result<Hits, AllocError>
    ensures { IfOk result (λ hits. numbered (marked_row hits.unready.items hits.reaching.items) 0 rows.now ≡ hits_failed (tracked_roots (map (unit_row U.meaning) units.now) t.0 rows.now) rows.now) }
{
    let waiting = unready(alloc, rows)?;
    let roots = tracker_rows(alloc, rows, units, t, &waiting)?;
    let hit = reaching_by_deps(alloc, rows, &roots, false)?;
    Ok(Hits {
        unready: waiting,
        reaching: hit,
    })
}

/// The unit is given up, and with it go the unready instances that reach one of its own.
pub fn fail<U: UnitKind>(
    alloc: Global,
    s: &mut PlainSession<U>,
    u: UnitId,
) -> Result<(), AllocError>
    ensures { OnOk result (meant U.meaning s.new ≡ failed u.0 (meant U.meaning s.old)) }
{
    let hits = unit_hits(alloc, &s.rows, u)?;
    fail_rows(&mut s.rows, &hits.unready, &hits.reaching);
    step_in(&mut s.units, u, Step::Fail);
    Ok(())
}

fn hide_row(row: &mut InstRow, gone: bool)
    ensures { row.new ≡ record row.old { present = row.old.present && not gone } }
{
    if gone {
        row.present = false;
    }
}

/// The rows of the tracker's units are no longer present.
fn hide_rows<U: UnitKind>(rows: &mut [InstRow], units: &[PlainUnit<U>], t: TrackId)
    ensures { rows.new ≡ map (hidden_row (map (unit_row U.meaning) units.now) t.0) rows.old }
{
    for row in rows.iter_mut() {
        hide_row(row, tracked(units, t, row.unit));
    }
}

fn job_of(job: Job) -> UnitId
    ensures { result.0 ≡ job_unit job }
{
    match job {
        Job::Start(u) => u,
        Job::Finish(u) => u,
    }
}

fn stays<U: UnitKind>(job: Job, units: &[PlainUnit<U>], t: TrackId) -> bool
    ensures { result ≡ stays_listed (map (unit_row U.meaning) units.now) t.0 job }
{
    !tracked(units, t, job_of(job))
}

fn keep_job(left: &mut Vec<Job>, job: Job, kept: bool) -> Result<(), AllocError>
    ensures { OnOk result (left.new.items ≡ (if kept then left.old.items ++ job ∷ [] else left.old.items)) }
{
    if kept {
        left.push(job)?;
    }
    Ok(())
}

/// The jobs of other trackers' units.
fn jobs_left<U: UnitKind>(
    alloc: Global,
    jobs: &[Job],
    units: &[PlainUnit<U>],
    t: TrackId,
) -> Result<Vec<Job>, AllocError>
    ensures { IfOk result (λ left. left.items ≡ filter (stays_listed (map (unit_row U.meaning) units.now) t.0) jobs.now) }
{
    let mut left = Vec::new(alloc);
    for job in jobs {
        keep_job(&mut left, *job, stays(*job, units, t))?;
    }
    Ok(left)
}

fn remove_unit<U: UnitKind>(x: &mut PlainUnit<U>, t: TrackId)
    ensures { unit_row U.meaning x.new ≡ removed_unit t.0 (unit_row U.meaning x.old) }
{
    if x.tracker == t.0 {
        x.phase = UnitPhase::Defunct;
        x.base = None;
    }
}

/// The tracker's units are gone.
fn remove_units<U: UnitKind>(units: &mut [PlainUnit<U>], t: TrackId)
    ensures { map (unit_row U.meaning) units.new ≡ map (removed_unit t.0) (map (unit_row U.meaning) units.old) }
{
    for x in units.iter_mut() {
        remove_unit(x, t);
    }
}

fn spend_one<U: UnitKind>(g: &mut PlainGenerator<U>, t: TrackId)
    ensures { gen_row U.meaning g.new ≡ removed_generator t.0 (gen_row U.meaning g.old) }
{
    if g.tracker == t.0 {
        g.spent = true;
    }
}

/// The tracker's generators are spent.
fn spend_all<U: UnitKind>(generators: &mut [PlainGenerator<U>], t: TrackId)
    ensures { map (gen_row U.meaning) generators.new ≡ map (removed_generator t.0) (map (gen_row U.meaning) generators.old) }
{
    for g in generators.iter_mut() {
        spend_one(g, t);
    }
}

fn end_track(x: &mut Track)
    ensures { x.new ≡ gone_tracker x.old }
{
    x.gone = true;
}

/// The tracker is gone.
#[tactic(auto, using(session_model::proofs::Changes::set_changed, session_model::proofs::Changes::changed_past))]
fn end_tracker(trackers: &mut Vec<Track>, t: TrackId)
    ensures { trackers.new.items ≡ changed_at t.0 gone_tracker trackers.old.items }
{
    if (t.0 as usize) < trackers.len() {
        end_track(&mut trackers[t.0 as usize]);
    }
}

/// The tracker's units are no longer present, and what a removal takes along fails.
fn remove_rows<U: UnitKind>(
    alloc: Global,
    rows: &mut Vec<InstRow>,
    units: &[PlainUnit<U>],
    t: TrackId,
) -> Result<(), AllocError>
    ensures { OnOk result (rows.new.items ≡ removed_rows (map (unit_row U.meaning) units.now) t.0 rows.old.items) }
{
    let hits = tracker_hits(alloc, rows, units, t)?;
    fail_rows(rows, &hits.unready, &hits.reaching);
    hide_rows(rows, units, t);
    Ok(())
}

/// The jobs of the tracker's units are no longer listed.
fn remove_jobs<U: UnitKind>(
    alloc: Global,
    jobs: &mut Vec<Job>,
    units: &[PlainUnit<U>],
    t: TrackId,
) -> Result<(), AllocError>
    ensures { OnOk result (jobs.new.items ≡ filter (stays_listed (map (unit_row U.meaning) units.now) t.0) jobs.old.items) }
{
    let left = jobs_left(alloc, jobs, units, t)?;
    *jobs = left;
    Ok(())
}

/// The tracker's instances and jobs go.
fn remove_from_lists<U: UnitKind>(
    alloc: Global,
    s: &mut PlainSession<U>,
    t: TrackId,
) -> Result<(), AllocError>
    ensures { OnOk result (meant U.meaning s.new ≡ record (meant U.meaning s.old) { rows = removed_rows (map (unit_row U.meaning) s.old.units.items) t.0 s.old.rows.items; jobs = filter (stays_listed (map (unit_row U.meaning) s.old.units.items) t.0) s.old.jobs.items }) }
{
    remove_rows(alloc, &mut s.rows, &s.units, t)?;
    remove_jobs(alloc, &mut s.jobs, &s.units, t)
}

/// The tracker, its units and its generators are gone.
fn remove_owners<U: UnitKind>(s: &mut PlainSession<U>, t: TrackId)
    ensures { meant U.meaning s.new ≡ record (meant U.meaning s.old) { units = map (removed_unit t.0) (map (unit_row U.meaning) s.old.units.items); generators = map (removed_generator t.0) (map (gen_row U.meaning) s.old.generators.items); trackers = changed_at t.0 gone_tracker s.old.trackers.items } }
{
    remove_units(&mut s.units, t);
    spend_all(&mut s.generators, t);
    end_tracker(&mut s.trackers, t);
}

/// All that the tracker has is removed.
pub fn remove<U: UnitKind>(
    alloc: Global,
    s: &mut PlainSession<U>,
    t: TrackId,
) -> Result<(), AllocError>
    ensures { OnOk result (meant U.meaning s.new ≡ removed t.0 (meant U.meaning s.old)) }
{
    remove_from_lists(alloc, s, t)?;
    remove_owners(s, t);
    Ok(())
}

fn move_unit<U: UnitKind>(x: &mut PlainUnit<U>, t: TrackId, to: TrackId)
    ensures { unit_row U.meaning x.new ≡ moved_unit t.0 to.0 (unit_row U.meaning x.old) }
{
    if x.tracker == t.0 {
        x.tracker = to.0;
    }
}

/// The units of the first tracker are the second's.
fn move_units<U: UnitKind>(units: &mut [PlainUnit<U>], t: TrackId, to: TrackId)
    ensures { map (unit_row U.meaning) units.new ≡ map (moved_unit t.0 to.0) (map (unit_row U.meaning) units.old) }
{
    for x in units.iter_mut() {
        move_unit(x, t, to);
    }
}

fn move_one<U: UnitKind>(g: &mut PlainGenerator<U>, t: TrackId, to: TrackId)
    ensures { gen_row U.meaning g.new ≡ moved_generator t.0 to.0 (gen_row U.meaning g.old) }
{
    if g.tracker == t.0 {
        g.tracker = to.0;
    }
}

/// The generators of the first tracker are the second's.
fn move_all<U: UnitKind>(generators: &mut [PlainGenerator<U>], t: TrackId, to: TrackId)
    ensures { map (gen_row U.meaning) generators.new ≡ map (moved_generator t.0 to.0) (map (gen_row U.meaning) generators.old) }
{
    for g in generators.iter_mut() {
        move_one(g, t, to);
    }
}

/// All that the first tracker has is the second's.
pub fn move_tracker<U: UnitKind>(s: &mut PlainSession<U>, t: TrackId, to: TrackId)
    ensures { meant U.meaning s.new ≡ moved t.0 to.0 (meant U.meaning s.old) }
{
    if t.0 != to.0 {
        move_units(&mut s.units, t, to);
        move_all(&mut s.generators, t, to);
        end_tracker(&mut s.trackers, t);
    }
}
