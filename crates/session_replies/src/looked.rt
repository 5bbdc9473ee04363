ghost use Rattle.session_replies.specs.Lookups.{IsOutcome};

use link_order::MatchError;
use session_model::{Matched, Reply};
use std::alloc::AllocError;

/// What a lookup comes to: what its names matched, or the reply that refuses it.
#[derive(Drop)]
pub enum Looked {
    Matched(Matched),
    Refused(Reply),
}

/// What a search without matches comes to.
fn refused(why: MatchError) -> Result<Looked, AllocError>
    ensures { IsOutcome (Err why) result }
{
    match why {
        MatchError::NoDylib(d) => Ok(Looked::Refused(Reply::NoDylib(d))),
        MatchError::Offer(g) => Ok(Looked::Refused(Reply::Offer(g))),
        MatchError::InError(i) => Ok(Looked::Refused(Reply::InError(i))),
        MatchError::Missing(name) => Ok(Looked::Refused(Reply::Missing(name))),
        MatchError::NoMemory => Err(AllocError),
    }
}

impl Looked {
    /// What a search comes to.
    pub(crate) fn of(searched: Result<Matched, MatchError>) -> Result<Looked, AllocError>
        ensures { IsOutcome searched result }
    {
        match searched {
            Ok(found) => Ok(Looked::Matched(found)),
            Err(why) => refused(why),
        }
    }
}
