//! What a call is answered, as tests write it down.

use crate::lists::write_matches;
use orc_ids::{InstId, NameId, Stop, UnitId};
use session_model::{Finishing, Matches, Reply};
use std::alloc::AllocError;

/// What is written of a reply.
enum Words<'a> {
    Bare(&'static str),
    /// The reply's name, and one id of this type.
    Id(&'static str, &'static str, u32),
    Number(&'static str, u64),
    Duplicate(NameId, InstId),
    Defined(UnitId, InstId, u32),
    Found(u64, &'a Matches),
    Lost(u64, InstId),
    Finish(UnitId, &'a Finishing),
}

/// What is written of the reply.
fn words_of(reply: &Reply) -> Words<'_> {
    match reply {
        Reply::NameTaken(d) => Words::Id("NameTaken", "DylibId", d.0),
        Reply::TooMany => Words::Bare("TooMany"),
        Reply::Made(d) => Words::Id("Made", "DylibId", d.0),
        Reply::NoDylib(d) => Words::Id("NoDylib", "DylibId", d.0),
        Reply::Set => Words::Bare("Set"),
        Reply::TrackerGone(t) => Words::Id("TrackerGone", "TrackId", t.0),
        Reply::Generator(g) => Words::Id("Generator", "GenId", g.0),
        Reply::Duplicate(name, i) => Words::Duplicate(*name, *i),
        Reply::Defined(u, i, count) => Words::Defined(*u, *i, *count),
        Reply::NoGen(g) => Words::Id("NoGen", "GenId", g.0),
        Reply::Spent(g) => Words::Id("Spent", "GenId", g.0),
        Reply::Offer(g) => Words::Id("Offer", "GenId", g.0),
        Reply::InError(i) => Words::Id("InError", "InstId", i.0),
        Reply::Missing(name) => Words::Id("Missing", "NameId", name.0),
        Reply::AliasCycle(i) => Words::Id("AliasCycle", "InstId", i.0),
        Reply::Done(q) => Words::Id("Done", "QueryId", q.0),
        Reply::Pending(q) => Words::Id("Pending", "QueryId", q.0),
        Reply::Unknown(q) => Words::Id("Unknown", "QueryId", q.0),
        Reply::Open => Words::Bare("Open"),
        Reply::Found(entry, matches) => Words::Found(*entry, matches),
        Reply::Lost(entry, i) => Words::Lost(*entry, *i),
        Reply::Idle(held) => Words::Number("Idle", u64::from(*held)),
        Reply::Start(u) => Words::Id("Start", "UnitId", u.0),
        Reply::Finish(u, finishing) => Words::Finish(*u, finishing),
        Reply::Defunct(u) => Words::Id("Defunct", "UnitId", u.0),
        Reply::WrongPhase(u) => Words::Id("WrongPhase", "UnitId", u.0),
        Reply::NoRoom(size) => Words::Number("NoRoom", *size),
        Reply::Placed(base) => Words::Number("Placed", *base),
        Reply::Resolved => Words::Bare("Resolved"),
        Reply::BadDep(i) => Words::Id("BadDep", "InstId", i.0),
        Reply::Emitted => Words::Bare("Emitted"),
        Reply::Failed => Words::Bare("Failed"),
        Reply::Tracker(t) => Words::Id("Tracker", "TrackId", t.0),
        Reply::OtherDylib => Words::Bare("OtherDylib"),
        Reply::Moved => Words::Bare("Moved"),
        Reply::Removed => Words::Bare("Removed"),
        Reply::Image => Words::Bare("Image"),
    }
}

/// Writes how a unit's link query ended.
fn write_finishing(text: &mut String, finishing: &Finishing) -> Result<(), AllocError> {
    match finishing {
        Finishing::Bound(matches) => {
            write!(text, "Bound(")?;
            write_matches(text, matches.as_slice())?;
            write!(text, ")")
        }
        Finishing::Lost(i) => write!(text, "Lost(InstId({}))", i.0),
    }
}

/// Writes where a query settled, and its addresses.
fn write_found(text: &mut String, entry: u64, matches: &Matches) -> Result<(), AllocError> {
    write!(text, "Found({entry}, ")?;
    write_matches(text, matches.as_slice())?;
    write!(text, ")")
}

/// Writes which unit is to be finished, and how its link query ended.
fn write_finish(text: &mut String, u: UnitId, finishing: &Finishing) -> Result<(), AllocError> {
    write!(text, "Finish(UnitId({}), ", u.0)?;
    write_finishing(text, finishing)?;
    write!(text, ")")
}

/// Writes the reply.
pub fn write_reply(text: &mut String, reply: &Reply) -> Result<(), AllocError> {
    match words_of(reply) {
        Words::Bare(name) => write!(text, "{name}"),
        Words::Id(name, kind, id) => write!(text, "{name}({kind}({id}))"),
        Words::Number(name, number) => write!(text, "{name}({number})"),
        Words::Duplicate(name, i) => {
            write!(text, "Duplicate(NameId({}), InstId({}))", name.0, i.0)
        }
        Words::Defined(u, i, count) => {
            write!(text, "Defined(UnitId({}), InstId({}), {count})", u.0, i.0)
        }
        Words::Found(entry, matches) => write_found(text, entry, matches),
        Words::Lost(entry, i) => write!(text, "Lost({entry}, InstId({}))", i.0),
        Words::Finish(u, finishing) => write_finish(text, u, finishing),
    }
}

/// Writes why there is no reply.
pub fn write_stop(text: &mut String, why: Stop) -> Result<(), AllocError> {
    match why {
        Stop::JournalFull(length) => write!(text, "JournalFull({length})"),
        Stop::NoMemory => write!(text, "NoMemory"),
    }
}

/// Writes the reply, or why there is none.
pub fn write_answer(text: &mut String, answer: &Result<Reply, Stop>) -> Result<(), AllocError> {
    match answer {
        Ok(reply) => {
            write!(text, "Ok(")?;
            write_reply(text, reply)?;
            write!(text, ")")
        }
        Err(why) => {
            write!(text, "Err(")?;
            write_stop(text, *why)?;
            write!(text, ")")
        }
    }
}
