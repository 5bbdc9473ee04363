//! What a session answers, as plain data.

use super::said::list;
use orc_ids::{DylibId, GenId, InstId, NameId, QueryId, TrackId, UnitId};
use session_model::{Finishing, Reply};
use std::alloc::{AllocError, Global};

/// A reply by its numbers and lists.
#[derive(Clone, Copy)]
pub(super) enum Told<'a> {
    NameTaken(u32),
    TooMany,
    Made(u32),
    NoDylib(u32),
    Set,
    TrackerGone(u32),
    Generator(u32),
    Duplicate(NameId, u32),
    /// The unit, its first instance and how many it has.
    Defined(u32, u32, u32),
    NoGen(u32),
    Spent(u32),
    Offer(u32),
    InError(u32),
    Missing(NameId),
    AliasCycle(u32),
    Done(u32),
    Pending(u32),
    Unknown(u32),
    Open,
    Found(u64, &'a [Option<(InstId, u64)>]),
    Lost(u64, u32),
    Idle(u32),
    Start(u32),
    FinishBound(u32, &'a [Option<(InstId, u64)>]),
    FinishLost(u32, u32),
    Defunct(u32),
    WrongPhase(u32),
    NoRoom(u64),
    Placed(u64),
    Resolved,
    BadDep(u32),
    Emitted,
    Failed,
    Tracker(u32),
    OtherDylib,
    Moved,
    Removed,
    Image,
}

/// The reply.
pub(super) fn reply_of(alloc: Global, told: &Told) -> Result<Reply, AllocError> {
    match told {
        Told::NameTaken(d) => Ok(Reply::NameTaken(DylibId(*d))),
        Told::TooMany => Ok(Reply::TooMany),
        Told::Made(d) => Ok(Reply::Made(DylibId(*d))),
        Told::NoDylib(d) => Ok(Reply::NoDylib(DylibId(*d))),
        Told::Set => Ok(Reply::Set),
        Told::TrackerGone(t) => Ok(Reply::TrackerGone(TrackId(*t))),
        Told::Generator(g) => Ok(Reply::Generator(GenId(*g))),
        Told::Duplicate(name, i) => Ok(Reply::Duplicate(*name, InstId(*i))),
        Told::Defined(u, i, count) => Ok(Reply::Defined(UnitId(*u), InstId(*i), *count)),
        Told::NoGen(g) => Ok(Reply::NoGen(GenId(*g))),
        Told::Spent(g) => Ok(Reply::Spent(GenId(*g))),
        Told::Offer(g) => Ok(Reply::Offer(GenId(*g))),
        Told::InError(i) => Ok(Reply::InError(InstId(*i))),
        Told::Missing(name) => Ok(Reply::Missing(*name)),
        Told::AliasCycle(i) => Ok(Reply::AliasCycle(InstId(*i))),
        Told::Done(q) => Ok(Reply::Done(QueryId(*q))),
        Told::Pending(q) => Ok(Reply::Pending(QueryId(*q))),
        Told::Unknown(q) => Ok(Reply::Unknown(QueryId(*q))),
        Told::Open => Ok(Reply::Open),
        Told::Found(at, all) => Ok(Reply::Found(*at, list(alloc, all)?)),
        Told::Lost(at, i) => Ok(Reply::Lost(*at, InstId(*i))),
        Told::Idle(held) => Ok(Reply::Idle(*held)),
        Told::Start(u) => Ok(Reply::Start(UnitId(*u))),
        Told::FinishBound(u, all) => bound_of(alloc, *u, all),
        Told::FinishLost(u, i) => Ok(Reply::Finish(UnitId(*u), Finishing::Lost(InstId(*i)))),
        Told::Defunct(u) => Ok(Reply::Defunct(UnitId(*u))),
        Told::WrongPhase(u) => Ok(Reply::WrongPhase(UnitId(*u))),
        Told::NoRoom(need) => Ok(Reply::NoRoom(*need)),
        Told::Placed(base) => Ok(Reply::Placed(*base)),
        Told::Resolved => Ok(Reply::Resolved),
        Told::BadDep(i) => Ok(Reply::BadDep(InstId(*i))),
        Told::Emitted => Ok(Reply::Emitted),
        Told::Failed => Ok(Reply::Failed),
        Told::Tracker(t) => Ok(Reply::Tracker(TrackId(*t))),
        Told::OtherDylib => Ok(Reply::OtherDylib),
        Told::Moved => Ok(Reply::Moved),
        Told::Removed => Ok(Reply::Removed),
        Told::Image => Ok(Reply::Image),
    }
}

fn bound_of(alloc: Global, u: u32, all: &[Option<(InstId, u64)>]) -> Result<Reply, AllocError> {
    let how = Finishing::Bound(list(alloc, all)?);
    Ok(Reply::Finish(UnitId(u), how))
}
