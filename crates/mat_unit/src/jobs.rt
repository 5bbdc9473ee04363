ghost use Rattle.std.specs.Prelude.{◌≡◌, ◌+◌, ◌<◌, ◌≤◌, ◌++◌, ◌∷◌, [], not, drop, filter, slice_get, vec_len, vec_capacity, ◌==◌, OnOk};
ghost use Rattle.std.specs.VecDeque.{deque_len, deque_capacity};
ghost use Rattle.session_model.specs.declared.rows.Job.{Job};
ghost use Rattle.session_model.specs.Change.{job_unit};
ghost use Rattle.mat_unit.specs.Jobs.{is_among, without_jobs_of, AreUnits};
ghost use Rattle.mat_unit.specs.Kept.{is_marked, AreMarked};

use orc_ids::UnitId;
use session_model::Job;
use std::alloc::{AllocError, Global};
use std::collections::{LinkedList, VecDeque};
use std::marker::Model;

/// The jobs that are listed, and a mark for each unit, which is set only while jobs are dropped.
#[derive(Drop)]
pub(crate) struct Jobs {
    listed: VecDeque<Job>,
    marks: Vec<bool>,
}

impl Model for Jobs {
    ghost use Rattle.std.specs.Prelude.{◌-◌, vec_len, vec_capacity};
    ghost use Rattle.std.specs.VecDeque.{deque_len, deque_capacity};
    ghost use Rattle.mat_unit.specs.Kept.{Listed, IsClear};

    ghost Value = { Listed };

    ghost view = { λ j. record {
      jobs = j.listed.items;
      room = deque_capacity j.listed - deque_len j.listed;
      units = vec_len j.marks;
      unit_room = vec_capacity j.marks - vec_len j.marks;
    } };

    ghost invariant = { λ j. IsClear j.marks.items };
}

impl Jobs {
    /// No jobs; takes no memory.
    pub(crate) fn new(alloc: Global) -> Jobs
        ensures jobs { result.jobs ≡ [] }
        ensures units { result.units ≡ 0 }
    {
        Jobs {
            listed: VecDeque::new(alloc),
            marks: Vec::new(alloc),
        }
    }

    /// Makes the room for one more unit, and for so many more jobs.
    pub(crate) fn room(&mut self, count: usize) -> Result<(), AllocError>
        ensures room { OnOk result (count ≤ self.new.room) }
        ensures unit_room { OnOk result (0 < self.new.unit_room) }
        ensures jobs { self.new.jobs ≡ self.old.jobs }
        ensures units { self.new.units ≡ self.old.units }
        ensures old_room { self.old.room ≤ self.new.room }
        ensures old_unit_room { self.old.unit_room ≤ self.new.unit_room }
    {
        self.listed.reserve(count)?;
        self.marks.reserve(1)
    }

    /// There may be jobs of one more unit.
    pub(crate) fn add_unit(&mut self)
        requires { 0 < self.old.unit_room }
        ensures units { self.new.units ≡ self.old.units + 1 }
        ensures unit_room { self.new.unit_room + 1 ≡ self.old.unit_room }
        ensures jobs { self.new.jobs ≡ self.old.jobs }
        ensures room { self.new.room ≡ self.old.room }
    {
        self.marks.push_reserved(false);
    }

    /// Lists a job, behind all others.
    pub(crate) fn push(&mut self, job: Job)
        requires { 0 < self.old.room }
        ensures jobs { self.new.jobs ≡ self.old.jobs ++ job ∷ [] }
        ensures room { self.new.room + 1 ≡ self.old.room }
        ensures units { self.new.units ≡ self.old.units }
        ensures unit_room { self.new.unit_room ≡ self.old.unit_room }
    {
        self.listed.push_back_reserved(job);
    }

    /// The oldest job.
    pub(crate) fn first(&self) -> Option<Job>
        ensures { result ≡ slice_get self.now.jobs 0 }
    {
        self.listed.front().copied()
    }

    /// Takes the oldest job out.
    pub(crate) fn pop(&mut self)
        ensures jobs { self.new.jobs ≡ drop 1 self.old.jobs }
        ensures room { self.old.room ≤ self.new.room }
        ensures units { self.new.units ≡ self.old.units }
        ensures unit_room { self.new.unit_room ≡ self.old.unit_room }
    {
        self.listed.pop_front();
    }

    /// Drops the jobs of some units.
    pub(crate) fn drop_of(&mut self, gone: &LinkedList<UnitId>)
        requires { AreUnits self.old.units gone.now }
        ensures jobs { self.new.jobs ≡ without_jobs_of gone.now self.old.jobs }
        ensures room { self.old.room ≤ self.new.room }
        ensures units { self.new.units ≡ self.old.units }
        ensures unit_room { self.new.unit_room ≡ self.old.unit_room }
    {
        mark_all(&mut self.marks, gone, true);
        drop_marked(&mut self.listed, self.marks.as_slice());
        mark_all(&mut self.marks, gone, false);
    }
}

/// Marks a unit, or takes its mark away.
fn mark(marks: &mut Vec<bool>, u: UnitId, to: bool)
    requires { u.0 < vec_len marks.old }
    ensures marks { AreMarked (λ k. u.0 == k) to marks.old.items marks.new.items }
    ensures len { vec_len marks.new ≡ vec_len marks.old }
    ensures capacity { vec_capacity marks.new ≡ vec_capacity marks.old }
{
    marks[u.0 as usize] = to;
}

/// Marks some units, or takes their marks away.
fn mark_all(marks: &mut Vec<bool>, units: &LinkedList<UnitId>, to: bool)
    requires { AreUnits (vec_len marks.old) units.now }
    ensures marks { AreMarked (is_among units.now) to marks.old.items marks.new.items }
    ensures len { vec_len marks.new ≡ vec_len marks.old }
    ensures capacity { vec_capacity marks.new ≡ vec_capacity marks.old }
{
    for u in units.iter() {
        mark(marks, *u, to);
    }
}

/// Whether the unit of a job is marked.
fn is_dropped(marks: &[bool], job: Job) -> bool
    ensures { result ≡ is_marked marks.now (job_unit job) }
{
    let mark = marks.get(unit_of(job).0 as usize).copied();
    mark.unwrap_or(false)
}

/// The unit of a job.
fn unit_of(job: Job) -> UnitId
    ensures { result.0 ≡ job_unit job }
{
    match job {
        Job::Start(u) => u,
        Job::Finish(u) => u,
    }
}

/// Drops the jobs of the units that are marked.
fn drop_marked(jobs: &mut VecDeque<Job>, marks: &[bool])
    ensures jobs { jobs.new.items ≡ filter (λ j. not (is_marked marks.now (job_unit j))) jobs.old.items }
    ensures room { deque_capacity jobs.new ≡ deque_capacity jobs.old }
    ensures len { deque_len jobs.new ≤ deque_len jobs.old }
{
    jobs.retain(|job| !is_dropped(marks, *job));
}
