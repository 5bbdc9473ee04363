//! A job that is handed out.

ghost use Rattle.std.specs.Prelude.{◌≡◌, ◌∷◌, ℕ, false, List, slice_get, option_and_then, Some, Ok, IfOk, OnErr};
ghost use Rattle.session_model.specs.Plain.{Plain, UnitRow, is_defunct, kept};
ghost use Rattle.session_model.specs.Change.{bindings_of};
ghost use Rattle.session_model.specs.declared.entry.Event.TheVariants as event;
ghost use Rattle.session_model.specs.declared.rows.Ending.{Ending};
ghost use Rattle.session_model.specs.declared.rows.Job.{Job};
ghost use Rattle.session_model.specs.declared.rows.Job.TheVariants as job;
ghost use Rattle.query_book.specs.Ends.{collected_end};
ghost use Rattle.query_book.specs.declared.ends.QueryEnd.{QueryEnd};
ghost use Rattle.session_steps.specs.Moved.{IsStill};
ghost use Rattle.session_steps.specs.Stands.{Stands};
ghost use Rattle.session_steps.specs.Steps.{IsQuietStep};
ghost use Rattle.session_steps.specs.Taken.{IsUnitOf, GivesUnit, finishing_of, LinkEnd, CanHandOut};

use crate::live::Live;
use mat_unit::Unit;
use orc_ids::{InstList, Items, QueryId, SeatNo, UnitId};
use orc_io::Notify;
use query_book::{Book, Collected};
use session_model::{Finishing, Job, Matches, Reply, UnitKind};
use session_replies::{first_job, kept};
use std::alloc::{AllocError, Global};

/// For each name that a unit offers whether it is live.
pub type Flags = Items<bool>;

/// A unit that was handed out.
#[derive(Drop)]
pub struct TakenUnit<U> {
    /// Another handle to the unit.
    pub share: U,
    pub live: Flags,
    /// Its instances, in the order of its live names.
    pub instances: InstList,
    /// Where it is placed, if it is.
    pub base: Option<u64>,
}

/// A job with its unit; the reply twice, for the caller and for the journal.
#[derive(Drop)]
pub struct HandedOut<U> {
    pub reply: Reply,
    pub entry: Reply,
    pub unit: TakenUnit<U>,
}

/// The unit, as it is handed out with these instances.
fn taken_of<U: UnitKind>(
    alloc: Global,
    unit: &Unit<U>,
    instances: InstList,
) -> Result<TakenUnit<U>, AllocError>
    ensures share { IfOk result (λ t. U.meaning t.share ≡ U.meaning unit.now.unit) }
    ensures live { IfOk result (λ t. t.live ≡ unit.now.live) }
    ensures instances { IfOk result (λ t. t.instances ≡ instances) }
    ensures base { IfOk result (λ t. t.base ≡ unit.now.base) }
{
    Ok(TakenUnit {
        share: unit.unit.share(alloc)?,
        live: Items::from_vec(unit.live.as_slice().to_vec(alloc)?),
        instances,
        base: unit.base,
    })
}

/// How a link query that ended so is told to the holder of its unit.
fn finishing_of(end: Collected) -> Finishing
    requires { (at : ℕ) × (e : Ending) × (end ≡ collected_end at e) }
    ensures { (at : ℕ) (e : Ending) → end ≡ collected_end at e → result ≡ finishing_of e }
{
    match end {
        Collected::Found(_, list) => Finishing::Bound(list),
        Collected::Failed(_, i) => Finishing::Lost(i),
        Collected::Unknown | Collected::Open => unreachable!(),
    }
}

/// How the query of this number ended, for the holder of its unit.
fn finishing_at<N: Notify>(book: &Book<N>, q: QueryId) -> Result<Finishing, AllocError>
    requires { (end : QueryEnd) × (slice_get book.now.ends q.0 ≡ Some (Some end)) }
    ensures { IfOk result (λ how. (end : QueryEnd) → slice_get book.now.ends q.0 ≡ Some (Some end) → how ≡ finishing_of end.end) }
{
    let end = book.collect(q)?;
    Ok(finishing_of(end))
}

/// The bindings that the end of a link query gives.
fn bindings_of(how: Finishing) -> Option<Matches>
    ensures { result ≡ bindings_of how }
{
    match how {
        Finishing::Bound(list) => Some(list),
        Finishing::Lost(_) => None,
    }
}

impl<U: UnitKind, N: Notify> Live<U, N> {
    /// The oldest job that is listed.
    pub fn next_job(&self) -> Option<Job>
        ghost m: { Plain }
        requires stands { Stands U.meaning m self.now.parts }
        ensures { result ≡ slice_get m.jobs 0 }
    {
        first_job(&self.parts)
    }

    /// How many units are held.
    pub fn held(&self) -> u32
        ghost m: { Plain }
        requires stands { Stands U.meaning m self.now.parts }
        ensures { result ≡ kept m }
    {
        kept(&self.parts)
    }

    /// The unit, as it is handed out.
    fn taken_unit(&self, u: UnitId) -> Result<TakenUnit<U>, AllocError>
        ghost m: { Plain }
        requires stands { Stands U.meaning m self.now.parts }
        requires can { CanHandOut m self.now.parts.book.ends }
        requires there { (x : UnitRow) × (slice_get m.units u.0 ≡ Some x) × (is_defunct x.phase ≡ false) }
        ensures { IfOk result (IsUnitOf U.meaning m u) }
    {
        let instances = self.parts.graph.own(u)?;
        match self.parts.units.get(u) {
            None => unreachable!(),
            Some(unit) => taken_of(self.parts.alloc, unit, instances),
        }
    }

    /// The number of the unit's link query.
    fn link_query(&self, u: UnitId) -> Option<u32>
        ensures { result ≡ option_and_then (λ x. x.query) (slice_get self.now.parts.units.units u.0) }
    {
        self.parts.units.get(u)?.query
    }

    /// How the unit's link query ended.
    fn finishing(&self, u: UnitId) -> Result<Finishing, AllocError>
        ghost m: { Plain }
        requires stands { Stands U.meaning m self.now.parts }
        requires ended { LinkEnd m self.now.parts.book.ends u.0 }
        ensures { IfOk result (λ how. (f : LinkEnd m self.now.parts.book.ends u.0) → how ≡ finishing_of f.end.end) }
    {
        match self.link_query(u) {
            None => unreachable!(),
            Some(q) => finishing_at(&self.parts.book, QueryId(q)),
        }
    }

    /// The seat takes the oldest job, the unit's Start.
    fn start(&mut self, s: SeatNo, u: UnitId) -> Result<HandedOut<U>, AllocError>
        ghost m: { Plain }
        requires stands { Stands U.meaning m self.old.parts }
        requires can { CanHandOut m self.old.parts.book.ends }
        requires first { (js : List Job) × (m.jobs ≡ job.Start u ∷ js) }
        ensures step { IfOk result (λ t. IsQuietStep U.meaning m s.0 event.Take t.entry self.old.parts self.new.parts) }
        ensures same { IfOk result (λ t. t.reply ≡ t.entry) }
        ensures unit { IfOk result (λ t. GivesUnit U.meaning m (Ok t.entry) (Some t.unit)) }
        ensures still { OnErr result (IsStill U.meaning m self.old.parts self.new.parts) }
        ensures rest { self.new ≡ record self.old { parts = self.new.parts } }
    {
        let unit = self.taken_unit(u)?;
        self.parts.start(s, u);
        Ok(HandedOut {
            reply: Reply::Start(u),
            entry: Reply::Start(u),
            unit,
        })
    }

    /// The seat takes the oldest job, the unit's Finish.
    fn finish(&mut self, s: SeatNo, u: UnitId) -> Result<HandedOut<U>, AllocError>
        ghost m: { Plain }
        requires stands { Stands U.meaning m self.old.parts }
        requires can { CanHandOut m self.old.parts.book.ends }
        requires first { (js : List Job) × (m.jobs ≡ job.Finish u ∷ js) }
        ensures step { IfOk result (λ t. IsQuietStep U.meaning m s.0 event.Take t.entry self.old.parts self.new.parts) }
        ensures same { IfOk result (λ t. t.reply ≡ t.entry) }
        ensures unit { IfOk result (λ t. GivesUnit U.meaning m (Ok t.entry) (Some t.unit)) }
        ensures still { OnErr result (IsStill U.meaning m self.old.parts self.new.parts) }
        ensures rest { self.new ≡ record self.old { parts = self.new.parts } }
    {
        let reply = self.finishing(u)?;
        let entry = self.finishing(u)?;
        let bound = bindings_of(self.finishing(u)?);
        let unit = self.taken_unit(u)?;
        self.parts.finish(s, u, bound);
        Ok(HandedOut {
            reply: Reply::Finish(u, reply),
            entry: Reply::Finish(u, entry),
            unit,
        })
    }

    /// The seat takes the oldest job.
    pub fn hand_out(&mut self, s: SeatNo, job: Job) -> Result<HandedOut<U>, AllocError>
        ghost m: { Plain }
        requires stands { Stands U.meaning m self.old.parts }
        requires can { CanHandOut m self.old.parts.book.ends }
        requires first { (js : List Job) × (m.jobs ≡ job ∷ js) }
        ensures step { IfOk result (λ t. IsQuietStep U.meaning m s.0 event.Take t.entry self.old.parts self.new.parts) }
        ensures same { IfOk result (λ t. t.reply ≡ t.entry) }
        ensures unit { IfOk result (λ t. GivesUnit U.meaning m (Ok t.entry) (Some t.unit)) }
        ensures still { OnErr result (IsStill U.meaning m self.old.parts self.new.parts) }
        ensures rest { self.new ≡ record self.old { parts = self.new.parts } }
    {
        match job {
            Job::Start(u) => self.start(s, u),
            Job::Finish(u) => self.finish(s, u),
        }
    }
}
