ghost use Rattle.std.specs.Prelude.{◌≡◌, false};
ghost use Rattle.session_model.specs.SameLists.{has_list};

use crate::{Finishing, Reply};

/// Another reply of the same words, where they have no list of addresses. Takes no memory.
pub fn copy_reply(r: &Reply) -> Reply
    requires { has_list r.now ≡ false }
    ensures { result ≡ r.now }
{
    match r {
        Reply::NameTaken(d) => Reply::NameTaken(*d),
        Reply::TooMany => Reply::TooMany,
        Reply::Made(d) => Reply::Made(*d),
        Reply::NoDylib(d) => Reply::NoDylib(*d),
        Reply::Set => Reply::Set,
        Reply::TrackerGone(t) => Reply::TrackerGone(*t),
        Reply::Generator(g) => Reply::Generator(*g),
        Reply::Duplicate(name, i) => Reply::Duplicate(*name, *i),
        Reply::Defined(u, first, count) => Reply::Defined(*u, *first, *count),
        Reply::NoGen(g) => Reply::NoGen(*g),
        Reply::Spent(g) => Reply::Spent(*g),
        Reply::Offer(g) => Reply::Offer(*g),
        Reply::InError(i) => Reply::InError(*i),
        Reply::Missing(name) => Reply::Missing(*name),
        Reply::AliasCycle(i) => Reply::AliasCycle(*i),
        Reply::Done(q) => Reply::Done(*q),
        Reply::Pending(q) => Reply::Pending(*q),
        Reply::Unknown(q) => Reply::Unknown(*q),
        Reply::Open => Reply::Open,
        Reply::Lost(at, i) => Reply::Lost(*at, *i),
        Reply::Idle(held) => Reply::Idle(*held),
        Reply::Start(u) => Reply::Start(*u),
        Reply::Finish(u, Finishing::Lost(i)) => Reply::Finish(*u, Finishing::Lost(*i)),
        Reply::Defunct(u) => Reply::Defunct(*u),
        Reply::WrongPhase(u) => Reply::WrongPhase(*u),
        Reply::NoRoom(need) => Reply::NoRoom(*need),
        Reply::Placed(base) => Reply::Placed(*base),
        Reply::Resolved => Reply::Resolved,
        Reply::BadDep(i) => Reply::BadDep(*i),
        Reply::Emitted => Reply::Emitted,
        Reply::Failed => Reply::Failed,
        Reply::Tracker(t) => Reply::Tracker(*t),
        Reply::OtherDylib => Reply::OtherDylib,
        Reply::Moved => Reply::Moved,
        Reply::Removed => Reply::Removed,
        Reply::Image => Reply::Image,
        Reply::Found(_, _) | Reply::Finish(_, Finishing::Bound(_)) => unreachable!(),
    }
}
