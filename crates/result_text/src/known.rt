ghost use Rattle.std.specs.Prelude.{◌↔◌, All, IsTrue, map};
ghost use Rattle.result_text.specs.Known.{AreAsked, AreKnownEnds, KnownEnd};

use journal_text::{are_given, is_given, knows_reply};
use orc_ids::{Items, Wanted};
use orc_names::Names;
use script_model::LineEnd;
use session_model::LookEnd;

/// Whether each name that is looked up, and each that a line's end speaks of, is one of the table.
pub fn are_known_ends(names: &Names, wanted: &[Items<Items<Wanted>>], ends: &[Vec<LineEnd>]) -> bool
    ensures { IsTrue result ↔ AreKnownEnds names.now wanted.now (map (λ c. c.items) ends.now) }
{
    all_ask_known(names, wanted) && all_end_known(names, ends)
}

fn all_ask_known(names: &Names, wanted: &[Items<Items<Wanted>>]) -> bool
    ensures { IsTrue result ↔ All (All (AreAsked names.now)) wanted.now }
{
    for client in wanted {
        if !asks_known(names, client.as_slice()) {
            return false;
        }
    }
    true
}

/// Whether each name that the lines of a client look up is one of the table.
fn asks_known(names: &Names, wanted: &[Items<Wanted>]) -> bool
    ensures { IsTrue result ↔ All (AreAsked names.now) wanted.now }
{
    for line in wanted {
        if !are_given(names, line.as_slice()) {
            return false;
        }
    }
    true
}

fn all_end_known(names: &Names, ends: &[Vec<LineEnd>]) -> bool
    ensures { IsTrue result ↔ All (All (KnownEnd names.now)) (map (λ c. c.items) ends.now) }
{
    for client in ends {
        if !ends_known(names, client.as_slice()) {
            return false;
        }
    }
    true
}

/// Whether each name that the ends of a client's lines speak of is one of the table.
fn ends_known(names: &Names, ends: &[LineEnd]) -> bool
    ensures { IsTrue result ↔ All (KnownEnd names.now) ends.now }
{
    for end in ends {
        if !knows_end(names, end) {
            return false;
        }
    }
    true
}

fn knows_end(names: &Names, end: &LineEnd) -> bool
    ensures { IsTrue result ↔ KnownEnd names.now end.now }
{
    match end {
        LineEnd::Replied(reply) => knows_reply(names, reply),
        LineEnd::Looked(LookEnd::Missing(name)) => is_given(names, *name),
        _ => true,
    }
}
