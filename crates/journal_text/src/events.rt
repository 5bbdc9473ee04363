ghost use Rattle.std.specs.Prelude.{◌≡◌, ◌++◌, OnOk};
ghost use Rattle.session_model.specs.State.{plain_event};
ghost use Rattle.journal_text.specs.Events.{why_text, ask_word, event_text, KnownWhy, KnownEvent};

use crate::lists::{put_groups, put_items, put_wanted_list};
use crate::parts::{level_word, put_named, put_unit};
use orc_names::Names;
use session_model::{Event, UnitKind, Why};
use std::alloc::AllocError;
use text_parts::{put, put_edge, put_numbered, put_pair};

pub(crate) fn put_event<U: UnitKind>(
    out: &mut Vec<u8>,
    names: &Names,
    event: &Event<U>,
) -> Result<(), AllocError>
    requires { KnownEvent names.now (plain_event U.meaning event.now) }
    ensures { OnOk result (out.new.items ≡ out.old.items ++ event_text names.now (plain_event U.meaning event.now)) }
{
    match event {
        Event::Dylib(name) => put_named(out, b"dylib ", names, *name),
        Event::SetOrder(d, order) => {
            put_numbered(out, b"order d", d.0)?;
            put_items(out, order.as_slice())
        }
        Event::Attach(d, t, unit) => {
            put_pair(out, b"attach d", d.0, b" t", t.0)?;
            put_unit(out, b" ", unit.name())
        }
        Event::Define(d, t, unit) => {
            put_pair(out, b"define d", d.0, b" t", t.0)?;
            put_unit(out, b" ", unit.name())
        }
        Event::Ask(order, wanted, level, note) => {
            put_ask_word(out, *note)?;
            put_items(out, order.as_slice())?;
            put(out, b" ")?;
            put(out, level_word(*level))?;
            put_wanted_list(out, names, wanted.as_slice())
        }
        Event::Place(u, shape) => {
            put_numbered(out, b"place u", u.0)?;
            put_pair(out, b" ", shape.need, b" ", shape.align)
        }
        Event::Emit(u, groups) => {
            put_numbered(out, b"emit u", u.0)?;
            put_groups(out, groups.as_slice())
        }
        Event::Fail(u, why) => {
            put_numbered(out, b"fail u", u.0)?;
            put(out, b" ")?;
            put_why(out, names, *why)
        }
        Event::Generate(g) => put_numbered(out, b"generate g", g.0),
        Event::Collect(q) => put_numbered(out, b"collect q", q.0),
        Event::Take => put(out, b"take"),
        Event::Resolve(u) => put_numbered(out, b"resolve u", u.0),
        Event::Link(u) => put_numbered(out, b"link u", u.0),
        Event::Tracker(d) => put_numbered(out, b"tracker d", d.0),
        Event::MoveTracker(t, to) => put_pair(out, b"move t", t.0, b" t", to.0),
        Event::Remove(t) => put_numbered(out, b"remove t", t.0),
        Event::Image => put(out, b"image"),
    }
}

fn put_ask_word(out: &mut Vec<u8>, note: Option<u32>) -> Result<(), AllocError>
    ensures { OnOk result (out.new.items ≡ out.old.items ++ ask_word note) }
{
    match note {
        None => put(out, b"ask"),
        Some(note) => put_numbered(out, b"watch ", note),
    }
}

fn put_why(out: &mut Vec<u8>, names: &Names, why: Why) -> Result<(), AllocError>
    requires { KnownWhy names.now why }
    ensures { OnOk result (out.new.items ≡ out.old.items ++ why_text names.now why) }
{
    match why {
        Why::Refused(place, kind, value) => put_edge(out, b"refused ", place, kind, value),
        Why::Missing(name) => put_named(out, b"missing ", names, name),
        Why::InError(i) => put_numbered(out, b"inerror i", i.0),
        Why::AliasCycle(i) => put_numbered(out, b"aliascycle i", i.0),
        Why::BadDep(i) => put_numbered(out, b"baddep i", i.0),
        Why::NoRoom(need) => put_numbered(out, b"noroom ", need),
        Why::NoMemory => put(out, b"nomemory"),
        Why::Full => put(out, b"full"),
    }
}
