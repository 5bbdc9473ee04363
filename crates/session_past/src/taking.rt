ghost use Rattle.std.specs.Prelude.{◌≡◌, ◌↔◌, ℕ, ◌≤◌, List, [], ◌∷◌, slice_get, length, Option, Some, option_and_then, option_map, count_by, is_some, IfOk};
ghost use Rattle.session_model.specs.Answer.{AnswersTake};
ghost use Rattle.session_model.specs.Meaning.{Meaning};
ghost use Rattle.session_model.specs.Plain.{kept};
ghost use Rattle.session_model.specs.State.{state};
ghost use Rattle.session_model.specs.declared.entry.Entry.{Entry};
ghost use Rattle.session_model.specs.declared.entry.Reply.{Reply};
ghost use Rattle.session_past.specs.Ends.{AreEnds};
ghost use Rattle.session_plain.specs.Meant.{meant, unit_row};
ghost use Rattle.session_past.specs.Taking.{IsCollected, end_reply, collect_reply, end_at, link_end, finish_reply, job_reply};

use crate::ends::Settled;
use orc_ids::{InstId, Items, QueryId, UnitId};
use session_model::{Ending, Finishing, Job, Matches, Reply, UnitKind};
use session_plain::{PlainSession, PlainUnit};
use std::alloc::{AllocError, Global};

fn copy_matches(alloc: Global, found: &[Option<(InstId, u64)>]) -> Result<Matches, AllocError>
    ensures { IfOk result (λ copy. copy ≡ found.now) }
{
    Ok(Items::from_vec(found.to_vec(alloc)?))
}

/// The end as the answer of a collect.
fn reply_end(alloc: Global, at: u64, end: &Ending) -> Result<Reply, AllocError>
    ensures { IfOk result (λ reply. reply ≡ end_reply at end.now) }
{
    match end {
        Ending::Found(found) => Ok(Reply::Found(at, copy_matches(alloc, found.as_slice())?)),
        Ending::Lost(i) => Ok(Reply::Lost(at, *i)),
    }
}

fn answer_collect(alloc: Global, ends: &[Option<Settled>], q: QueryId) -> Result<Reply, AllocError>
    ensures { IfOk result (λ reply. reply ≡ collect_reply ends.now q) }
{
    match ends.get(q.0 as usize) {
        None => Ok(Reply::Unknown(q)),
        Some(None) => Ok(Reply::Open),
        Some(Some(settled)) => reply_end(alloc, settled.at, &settled.end),
    }
}

/// What collecting a query's end is answered; Open, which makes no entry, while it has none.
pub fn reply_collect<U: UnitKind>(
    alloc: Global,
    s: &PlainSession<U>,
    ends: &[Option<Settled>],
    q: QueryId,
) -> Result<Reply, AllocError>
    ensures by_ends { IfOk result (λ reply. reply ≡ collect_reply ends.now q) }
    ensures right { IfOk result (λ reply. (past : List (Entry Meaning)) → AreEnds past (meant U.meaning s.now) ends.now → IsCollected past (meant U.meaning s.now) q.0 reply) }
{
    let reply = answer_collect(alloc, ends, q)?;
    Ok(reply)
}

/// The end as the answer of a take.
fn reply_finish(alloc: Global, u: UnitId, end: &Ending) -> Result<Reply, AllocError>
    ensures { IfOk result (λ reply. reply ≡ finish_reply u end.now) }
{
    match end {
        Ending::Found(found) => Ok(Reply::Finish(
            u,
            Finishing::Bound(copy_matches(alloc, found.as_slice())?),
        )),
        Ending::Lost(i) => Ok(Reply::Finish(u, Finishing::Lost(*i))),
    }
}

fn finish_by(
    alloc: Global,
    ends: &[Option<Settled>],
    u: UnitId,
    k: u32,
) -> Result<Option<Reply>, AllocError>
    ensures { IfOk result (λ reply. reply ≡ option_map (finish_reply u) (end_at ends.now k)) }
{
    match ends.get(k as usize) {
        Some(Some(settled)) => Ok(Some(reply_finish(alloc, u, &settled.end)?)),
        _ => Ok(None),
    }
}

/// The link query of the unit.
pub fn link_query<U: UnitKind>(s: &PlainSession<U>, u: UnitId) -> Option<u32>
    ensures { result ≡ option_and_then (λ x. x.query) (slice_get (meant U.meaning s.now).units u.0) }
{
    match s.units.get(u.0 as usize) {
        Some(x) => x.query,
        None => None,
    }
}

/// The answer of a take that hands this job out; none where the link query of a unit to be finished
/// has no end, which no legal history leads to.
fn reply_job<U: UnitKind>(
    alloc: Global,
    s: &PlainSession<U>,
    ends: &[Option<Settled>],
    job: Job,
) -> Result<Option<Reply>, AllocError>
    ensures { IfOk result (λ reply. reply ≡ job_reply (meant U.meaning s.now) ends.now job) }
{
    match job {
        Job::Start(u) => Ok(Some(Reply::Start(u))),
        Job::Finish(u) => match link_query(s, u) {
            Some(k) => finish_by(alloc, ends, u, k),
            None => Ok(None),
        },
    }
}

fn answer_take<U: UnitKind>(
    alloc: Global,
    s: &PlainSession<U>,
    ends: &[Option<Settled>],
) -> Result<Option<Reply>, AllocError>
    ensures { IfOk result (λ reply. reply ≡ option_and_then (job_reply (meant U.meaning s.now) ends.now) (slice_get s.now.jobs.items 0)) }
{
    match s.jobs.get(0) {
        Some(job) => reply_job(alloc, s, ends, *job),
        None => Ok(None),
    }
}

/// The one reply that a take makes an entry with, if there is one.
pub fn reply_of_job<U: UnitKind>(
    alloc: Global,
    s: &PlainSession<U>,
    ends: &[Option<Settled>],
) -> Result<Option<Reply>, AllocError>
    ensures { IfOk result (λ found. (past : List (Entry Meaning)) → meant U.meaning s.now ≡ state past → AreEnds past (meant U.meaning s.now) ends.now → (reply : Reply) → (found ≡ Some reply) ↔ AnswersTake past (meant U.meaning s.now) (meant U.meaning s.now).jobs reply) }
{
    let found = answer_take(alloc, s, ends)?;
    Ok(found)
}

fn is_kept<U: UnitKind>(x: &PlainUnit<U>) -> bool
    ensures { result ≡ is_some (unit_row U.meaning x.now).seat }
{
    x.seat.is_some()
}

/// How many units are held.
pub fn held_count<U: UnitKind>(s: &PlainSession<U>) -> usize
    ensures held { result ≡ kept (meant U.meaning s.now) }
    ensures within { result ≤ length s.now.units.items }
{
    s.units.iter().filter(|x| is_kept(*x)).count()
}
