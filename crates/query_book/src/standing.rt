ghost use Rattle.std.specs.Prelude.{◌≡◌, ◌≤◌, length};
ghost use Rattle.std.specs.Vec.{vec_capacity};
ghost use Rattle.query_book.specs.Stands.{at_level, is_lost, first_lost, with_address, addresses, ending};

use orc_ids::{InstId, Items, Level};
use session_model::{Ending, Matches, Query, Standing};

/// Whether an instance is at the level.
pub(crate) fn at_level<T: Standing>(standing: &T, level: Level, i: InstId) -> bool
    ensures { result ≡ at_level (T.stand standing.now) level i.0 }
{
    match level {
        Level::Resolved => standing.address(i).is_some(),
        Level::Ready => standing.ready(i),
    }
}

/// Whether an instance failed, or is gone.
pub(crate) fn is_lost<T: Standing>(standing: &T, i: InstId) -> bool
    ensures { result ≡ is_lost (T.stand standing.now) i.0 }
{
    standing.failed(i) || !standing.present(i)
}

/// The first matched instance that is lost.
pub(crate) fn lost_match<T: Standing>(standing: &T, matched: &[Option<InstId>]) -> Option<InstId>
    ensures { result ≡ first_lost (T.stand standing.now) matched.now }
{
    for found in matched {
        if let Some(i) = found {
            if is_lost(standing, *i) {
                return Some(*i);
            }
        }
    }
    None
}

/// What is matched, with its address.
fn with_address<T: Standing>(standing: &T, found: Option<InstId>) -> Option<(InstId, u64)>
    ensures { result ≡ with_address (T.stand standing.now) found }
{
    match found {
        Some(i) => Some((i, standing.address(i).unwrap_or(0))),
        None => None,
    }
}

/// Each matched instance with its address, in the room that was kept for them.
fn addresses_in<T: Standing>(
    standing: &T,
    matched: &[Option<InstId>],
    room: Vec<Option<(InstId, u64)>>,
) -> Matches
    requires { length matched.now ≤ vec_capacity room }
    ensures { result ≡ addresses (T.stand standing.now) matched.now }
{
    let mut room = room;
    room.clear();
    for found in matched {
        room.push_reserved(with_address(standing, *found));
    }
    Items::from_vec(room)
}

/// How the query ends, in the room that was kept for its end.
pub(crate) fn ending_of<T: Standing>(
    standing: &T,
    q: &Query,
    room: Vec<Option<(InstId, u64)>>,
) -> Ending
    requires { length q.now.matched ≤ vec_capacity room }
    ensures { result ≡ ending (T.stand standing.now) q.now }
{
    match lost_match(standing, q.matched.as_slice()) {
        Some(i) => Ending::Lost(i),
        None => Ending::Found(addresses_in(standing, q.matched.as_slice(), room)),
    }
}
