ghost use Rattle.std.specs.Prelude.{◌≡◌, ◌↔◌, IsTrue};

use crate::{Finishing, Reply};
use orc_ids::InstId;

fn same_match(a: &Option<(InstId, u64)>, b: &Option<(InstId, u64)>) -> bool
    ensures { IsTrue result ↔ (a.now ≡ b.now) }
{
    a == b
}

fn same_matches(a: &[Option<(InstId, u64)>], b: &[Option<(InstId, u64)>]) -> bool
    ensures { IsTrue result ↔ (a.now ≡ b.now) }
{
    if a.len() != b.len() {
        return false;
    }
    for (k, x) in a.iter().enumerate() {
        if !same_match(x, &b[k]) {
            return false;
        }
    }
    true
}

fn same_finishing(a: &Finishing, b: &Finishing) -> bool
    ensures { IsTrue result ↔ (a.now ≡ b.now) }
{
    match a {
        Finishing::Bound(x) =>
            matches!(b, Finishing::Bound(y) if same_matches(x.as_slice(), y.as_slice())),
        Finishing::Lost(i) => matches!(b, Finishing::Lost(j) if i == j),
    }
}

/// Whether two replies are the same.
pub fn same_reply(a: &Reply, b: &Reply) -> bool
    ensures { IsTrue result ↔ (a.now ≡ b.now) }
{
    match a {
        Reply::NameTaken(x) => matches!(b, Reply::NameTaken(y) if x == y),
        Reply::TooMany => matches!(b, Reply::TooMany),
        Reply::Made(x) => matches!(b, Reply::Made(y) if x == y),
        Reply::NoDylib(x) => matches!(b, Reply::NoDylib(y) if x == y),
        Reply::Set => matches!(b, Reply::Set),
        Reply::TrackerGone(x) => matches!(b, Reply::TrackerGone(y) if x == y),
        Reply::Generator(x) => matches!(b, Reply::Generator(y) if x == y),
        Reply::Duplicate(x, i) => matches!(b, Reply::Duplicate(y, j) if x == y && i == j),
        Reply::Defined(x, i, n) => {
            matches!(b, Reply::Defined(y, j, k) if x == y && i == j && n == k)
        }
        Reply::NoGen(x) => matches!(b, Reply::NoGen(y) if x == y),
        Reply::Spent(x) => matches!(b, Reply::Spent(y) if x == y),
        Reply::Offer(x) => matches!(b, Reply::Offer(y) if x == y),
        Reply::InError(x) => matches!(b, Reply::InError(y) if x == y),
        Reply::AliasCycle(x) => matches!(b, Reply::AliasCycle(y) if x == y),
        Reply::Missing(x) => matches!(b, Reply::Missing(y) if x == y),
        Reply::Done(x) => matches!(b, Reply::Done(y) if x == y),
        Reply::Pending(x) => matches!(b, Reply::Pending(y) if x == y),
        Reply::Unknown(x) => matches!(b, Reply::Unknown(y) if x == y),
        Reply::Open => matches!(b, Reply::Open),
        Reply::Found(n, x) => {
            matches!(b, Reply::Found(k, y) if n == k && same_matches(x.as_slice(), y.as_slice()))
        }
        Reply::Lost(n, i) => matches!(b, Reply::Lost(k, j) if n == k && i == j),
        Reply::Idle(n) => matches!(b, Reply::Idle(k) if n == k),
        Reply::Start(x) => matches!(b, Reply::Start(y) if x == y),
        Reply::Finish(x, how) => {
            matches!(b, Reply::Finish(y, end) if x == y && same_finishing(how, end))
        }
        Reply::Defunct(x) => matches!(b, Reply::Defunct(y) if x == y),
        Reply::WrongPhase(x) => matches!(b, Reply::WrongPhase(y) if x == y),
        Reply::NoRoom(n) => matches!(b, Reply::NoRoom(k) if n == k),
        Reply::Placed(n) => matches!(b, Reply::Placed(k) if n == k),
        Reply::Resolved => matches!(b, Reply::Resolved),
        Reply::BadDep(x) => matches!(b, Reply::BadDep(y) if x == y),
        Reply::Emitted => matches!(b, Reply::Emitted),
        Reply::Failed => matches!(b, Reply::Failed),
        Reply::Tracker(x) => matches!(b, Reply::Tracker(y) if x == y),
        Reply::OtherDylib => matches!(b, Reply::OtherDylib),
        Reply::Moved => matches!(b, Reply::Moved),
        Reply::Removed => matches!(b, Reply::Removed),
        Reply::Image => matches!(b, Reply::Image),
    }
}
