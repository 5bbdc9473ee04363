ghost use Rattle.std.specs.Prelude.{◌↔◌, IsTrue, All};
ghost use Rattle.orc_ids.specs.declared.lookup.Wanted.{Wanted};
ghost use Rattle.session_model.specs.State.{plain_entry, plain_event, plain_history};
ghost use Rattle.journal_text.specs.Parts.{IsGiven};
ghost use Rattle.journal_text.specs.Events.{KnownEvent};
ghost use Rattle.journal_text.specs.Replies.{KnownReply};
ghost use Rattle.journal_text.specs.Journal.{KnownEntry, AreKnown};

use orc_ids::{NameId, Wanted};
use orc_names::Names;
use session_model::{Entry, Event, Reply, UnitKind, Why};

/// Whether each name that the entries speak of is one of the table.
pub fn are_known<U: UnitKind>(entries: &[Entry<U>], names: &Names) -> bool
    ensures { IsTrue result ↔ AreKnown names.now (plain_history U.meaning entries.now) }
{
    for entry in entries {
        if !is_known(entry, names) {
            return false;
        }
    }
    true
}

fn is_known<U: UnitKind>(entry: &Entry<U>, names: &Names) -> bool
    ensures { IsTrue result ↔ KnownEntry names.now (plain_entry U.meaning entry.now) }
{
    knows_event(names, &entry.event) && knows_reply(names, &entry.reply)
}

fn knows_event<U: UnitKind>(names: &Names, event: &Event<U>) -> bool
    ensures { IsTrue result ↔ KnownEvent names.now (plain_event U.meaning event.now) }
{
    match event {
        Event::Dylib(name) => is_given(names, *name),
        Event::Ask(_, wanted, _, _) => are_given(names, wanted.as_slice()),
        Event::Fail(_, Why::Missing(name)) => is_given(names, *name),
        _ => true,
    }
}

/// Whether each name of a reply is one of the table.
pub fn knows_reply(names: &Names, reply: &Reply) -> bool
    ensures { IsTrue result ↔ KnownReply names.now reply.now }
{
    match reply {
        Reply::Duplicate(name, _) => is_given(names, *name),
        Reply::Missing(name) => is_given(names, *name),
        _ => true,
    }
}

/// Whether each name that is looked up is one of the table.
pub fn are_given(names: &Names, wanted: &[Wanted]) -> bool
    ensures { IsTrue result ↔ All (λ (w : Wanted). IsGiven names.now w.name) wanted.now }
{
    for w in wanted {
        if !is_given(names, w.name) {
            return false;
        }
    }
    true
}

/// Whether a name is one of the table.
pub fn is_given(names: &Names, name: NameId) -> bool
    ensures { IsTrue result ↔ IsGiven names.now name }
{
    (name.0 as usize) < names.len()
}
