ghost use Rattle.std.specs.Prelude.{◌≡◌, ◌++◌, OnOk};
ghost use Rattle.journal_text.specs.Replies.{finishing_text, reply_text, KnownReply};

use crate::lists::{put_bound_list, put_found_list};
use crate::parts::put_named;
use orc_names::Names;
use session_model::{Finishing, Reply};
use std::alloc::{AllocError, Global};
use text_parts::{put, put_at, put_numbered, put_pair};

/// The words of a reply.
pub fn put_reply(
    alloc: Global,
    out: &mut Vec<u8>,
    names: &Names,
    reply: &Reply,
) -> Result<(), AllocError>
    requires { KnownReply names.now reply.now }
    ensures { OnOk result (out.new.items ≡ out.old.items ++ reply_text names.now reply.now) }
{
    match reply {
        Reply::NameTaken(d) => put_numbered(out, b"taken d", d.0),
        Reply::TooMany => put(out, b"toomany"),
        Reply::Made(d) => put_numbered(out, b"made d", d.0),
        Reply::NoDylib(d) => put_numbered(out, b"nodylib d", d.0),
        Reply::Set => put(out, b"set"),
        Reply::TrackerGone(t) => put_numbered(out, b"gone t", t.0),
        Reply::Generator(g) => put_numbered(out, b"generator g", g.0),
        Reply::Duplicate(name, i) => {
            put_named(out, b"duplicate ", names, *name)?;
            put_numbered(out, b" i", i.0)
        }
        Reply::Defined(u, first, count) => {
            put_pair(out, b"defined u", u.0, b" i", first.0)?;
            put_numbered(out, b" ", *count)
        }
        Reply::NoGen(g) => put_numbered(out, b"nogen g", g.0),
        Reply::Spent(g) => put_numbered(out, b"spent g", g.0),
        Reply::Offer(g) => put_numbered(out, b"offer g", g.0),
        Reply::InError(i) => put_numbered(out, b"inerror i", i.0),
        Reply::Missing(name) => put_named(out, b"missing ", names, *name),
        Reply::AliasCycle(i) => put_numbered(out, b"aliascycle i", i.0),
        Reply::Done(q) => put_numbered(out, b"done q", q.0),
        Reply::Pending(q) => put_numbered(out, b"pending q", q.0),
        Reply::Unknown(q) => put_numbered(out, b"unknown q", q.0),
        Reply::Open => put(out, b"open"),
        Reply::Found(at, matches) => {
            put_numbered(out, b"found ", *at)?;
            put_found_list(alloc, out, matches.as_slice())
        }
        Reply::Lost(at, i) => put_pair(out, b"failed ", *at, b" i", i.0),
        Reply::Idle(held) => put_numbered(out, b"idle ", *held),
        Reply::Start(u) => put_numbered(out, b"start u", u.0),
        Reply::Finish(u, end) => {
            put_numbered(out, b"finish u", u.0)?;
            put_finishing(out, end)
        }
        Reply::Defunct(u) => put_numbered(out, b"defunct u", u.0),
        Reply::WrongPhase(u) => put_numbered(out, b"wrongphase u", u.0),
        Reply::NoRoom(need) => put_numbered(out, b"noroom ", *need),
        Reply::Placed(base) => put_at(alloc, out, b"placed ", *base),
        Reply::Resolved => put(out, b"resolved"),
        Reply::BadDep(i) => put_numbered(out, b"baddep i", i.0),
        Reply::Emitted => put(out, b"emitted"),
        Reply::Failed => put(out, b"failed"),
        Reply::Tracker(t) => put_numbered(out, b"tracker t", t.0),
        Reply::OtherDylib => put(out, b"otherdylib"),
        Reply::Moved => put(out, b"moved"),
        Reply::Removed => put(out, b"removed"),
        Reply::Image => put(out, b"image"),
    }
}

fn put_finishing(out: &mut Vec<u8>, end: &Finishing) -> Result<(), AllocError>
    ensures { OnOk result (out.new.items ≡ out.old.items ++ finishing_text end.now) }
{
    match end {
        Finishing::Bound(matches) => {
            put(out, b" bound")?;
            put_bound_list(out, matches.as_slice())
        }
        Finishing::Lost(i) => put_numbered(out, b" lost i", i.0),
    }
}
