//! The answer to a lookup that isn't refused.

ghost use Rattle.std.specs.Prelude.{◌≡◌, ◌<◌, ◌^◌, true, length};
ghost use Rattle.std.specs.Option.{option_map_or};
ghost use Rattle.session_model.specs.Answer.{lodged_reply};
ghost use Rattle.session_model.specs.Plain.{Plain};
ghost use Rattle.session_model.specs.Query.{at_level, all_at};
ghost use Rattle.session_parts.specs.Parts.{AreParts};

use instances::InstanceGraph;
use orc_ids::{InstId, Level, QueryId};
use orc_io::Notify;
use session_model::{Reply, Standing, UnitKind};
use session_parts::Parts;

/// Whether the instance is at the level.
fn at_level(graph: &InstanceGraph, level: Level, i: InstId) -> bool
    ensures { result ≡ at_level graph.now.rows level i.0 }
{
    match level {
        Level::Resolved => graph.address(i).is_some(),
        Level::Ready => graph.ready(i),
    }
}

/// Whether what a name matched, if it did, is at the level.
fn match_at(graph: &InstanceGraph, level: Level, found: Option<InstId>) -> bool
    ensures { result ≡ option_map_or (λ i. at_level graph.now.rows level i.0) found true }
{
    match found {
        Some(i) => at_level(graph, level, i),
        None => true,
    }
}

/// Whether each matched instance is at the level.
fn all_at(graph: &InstanceGraph, level: Level, matched: &[Option<InstId>]) -> bool
    ensures { result ≡ all_at graph.now.rows level matched.now }
{
    matched.iter().all(|found| match_at(graph, level, *found))
}

/// The answer to a lookup that matched these: a query of the next number, which is done if all of them are
/// at its level already. Takes no memory.
pub fn lodged_reply<U: UnitKind, N: Notify>(
    parts: &Parts<U, N>,
    level: Level,
    found: &[Option<InstId>],
) -> Reply
    ghost m: { Plain }
    requires parts { AreParts U.meaning parts.now m }
    requires queries { parts.now.book.queries ≡ m.queries }
    requires few { length m.queries < 2 ^ 32 }
    ensures { result ≡ lodged_reply m level found.now }
{
    let query = QueryId(parts.book.len() as u32);
    if all_at(&parts.graph, level, found) {
        Reply::Done(query)
    } else {
        Reply::Pending(query)
    }
}
