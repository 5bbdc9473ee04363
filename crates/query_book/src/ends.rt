ghost use Rattle.std.specs.Prelude.{◌≡◌, IfOk};
ghost use Rattle.query_book.specs.Ends.{collected_end, told_end};

use orc_ids::{End, InstId, Items};
use session_model::{Ending, Matches};
use std::alloc::{AllocError, Global};

/// How a query ended, with the number of the entry at which it did.
#[derive(Drop)]
pub struct QueryEnd {
    pub at: u64,
    pub end: Ending,
}

/// What is known of a query's end.
#[derive(Drop)]
pub enum Collected {
    /// There is no such query.
    Unknown,
    /// It hasn't settled.
    Open,
    /// It settled at this entry, since this instance failed or was removed.
    Failed(u64, InstId),
    /// It settled at this entry, with these addresses.
    Found(u64, Matches),
}

/// A copy of an end.
pub(crate) fn copy_end(alloc: Global, at: u64, end: &Ending) -> Result<Collected, AllocError>
    ensures { IfOk result (λ copy. copy ≡ collected_end at end.now) }
{
    match end {
        Ending::Found(list) => Ok(Collected::Found(
            at,
            Items::from_vec(list.as_slice().to_vec(alloc)?),
        )),
        Ending::Lost(i) => Ok(Collected::Failed(at, *i)),
    }
}

/// What the notifier of a query with this end is told.
pub(crate) fn told_end(at: u64, end: &Ending) -> End
    ensures { result ≡ told_end at end.now }
{
    match end {
        Ending::Found(_) => End::Found(at),
        Ending::Lost(i) => End::Failed(at, *i),
    }
}
