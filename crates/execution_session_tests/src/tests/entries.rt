//! The entries of a journal, as a table has them.

use super::units::Named;
use orc_ids::{Group, InstId, Level, NameId, OrderItem, Scope, Wanted};
use session_model::{Entry, Event};
use std::alloc::AllocError;
use test_words::write_reply;

/// Writes what comes before the item of this number in a list.
fn write_comma(text: &mut String, k: usize) -> Result<(), AllocError> {
    if k > 0 {
        return write!(text, ", ");
    }
    Ok(())
}

/// Writes an order.
fn write_order(text: &mut String, order: &[OrderItem]) -> Result<(), AllocError> {
    write!(text, "Items {{ items: [")?;
    for (k, item) in order.iter().enumerate() {
        write_comma(text, k)?;
        let scope = match item.scope {
            Scope::All => "All",
            Scope::Exported => "Exported",
        };
        let dylib = item.dylib.0;
        write!(
            text,
            "OrderItem {{ dylib: DylibId({dylib}), scope: {scope} }}"
        )?;
    }
    write!(text, "] }}")
}

/// Writes the names of a lookup.
fn write_wanted(text: &mut String, wanted: &[Wanted]) -> Result<(), AllocError> {
    write!(text, "Items {{ items: [")?;
    for (k, item) in wanted.iter().enumerate() {
        write_comma(text, k)?;
        let (name, weak) = (item.name.0, item.weak);
        write!(text, "Wanted {{ name: NameId({name}), weak: {weak} }}")?;
    }
    write!(text, "] }}")
}

/// Writes a list of instances.
fn write_instances(text: &mut String, instances: &[InstId]) -> Result<(), AllocError> {
    write!(text, "Items {{ items: [")?;
    for (k, i) in instances.iter().enumerate() {
        write_comma(text, k)?;
        write!(text, "InstId({})", i.0)?;
    }
    write!(text, "] }}")
}

/// Writes dependence groups.
fn write_groups(text: &mut String, groups: &[Group]) -> Result<(), AllocError> {
    write!(text, "Items {{ items: [")?;
    for (k, group) in groups.iter().enumerate() {
        write_comma(text, k)?;
        write!(text, "Group {{ members: ")?;
        write_instances(text, group.members.as_slice())?;
        write!(text, ", deps: ")?;
        write_instances(text, group.deps.as_slice())?;
        write!(text, " }}")?;
    }
    write!(text, "] }}")
}

/// Writes the name that a unit looks up, if it does.
fn write_wants(text: &mut String, wants: Option<NameId>) -> Result<(), AllocError> {
    match wants {
        Some(name) => write!(text, "Some(NameId({}))", name.0),
        None => write!(text, "None"),
    }
}

/// Writes a unit.
fn write_unit(text: &mut String, unit: &Named) -> Result<(), AllocError> {
    let Named {
        name,
        weak,
        wants,
        more,
    } = *unit;
    write!(
        text,
        "Named {{ name: NameId({}), weak: {weak}, wants: ",
        name.0
    )?;
    write_wants(text, wants)?;
    write!(text, ", more: {more} }}")
}

/// Writes a lookup.
fn write_ask(
    text: &mut String,
    order: &[OrderItem],
    wanted: &[Wanted],
    level: Level,
    note: Option<u32>,
) -> Result<(), AllocError> {
    write!(text, "Ask(")?;
    write_order(text, order)?;
    write!(text, ", ")?;
    write_wanted(text, wanted)?;
    let level = match level {
        Level::Resolved => "Resolved",
        Level::Ready => "Ready",
    };
    match note {
        Some(note) => write!(text, ", {level}, Some({note}))"),
        None => write!(text, ", {level}, None)"),
    }
}

/// Writes an event, of those that a table has.
fn write_event(text: &mut String, event: &Event<Named>) -> Result<(), AllocError> {
    match event {
        Event::Dylib(name) => write!(text, "Dylib(NameId({}))", name.0),
        Event::Tracker(d) => write!(text, "Tracker(DylibId({}))", d.0),
        Event::Define(d, t, unit) => {
            write!(text, "Define(DylibId({}), TrackId({}), ", d.0, t.0)?;
            write_unit(text, unit)?;
            write!(text, ")")
        }
        Event::Ask(order, wanted, level, note) => {
            write_ask(text, order.as_slice(), wanted.as_slice(), *level, *note)
        }
        Event::Take => write!(text, "Take"),
        Event::Place(u, shape) => write!(
            text,
            "Place(UnitId({}), Shape {{ need: {}, align: {} }})",
            u.0, shape.need, shape.align
        ),
        Event::Resolve(u) => write!(text, "Resolve(UnitId({}))", u.0),
        Event::Link(u) => write!(text, "Link(UnitId({}))", u.0),
        Event::Emit(u, groups) => {
            write!(text, "Emit(UnitId({}), ", u.0)?;
            write_groups(text, groups.as_slice())?;
            write!(text, ")")
        }
        Event::Collect(q) => write!(text, "Collect(QueryId({}))", q.0),
        Event::Image => write!(text, "Image"),
        _ => write!(text, "an event of another kind"),
    }
}

/// Writes an entry.
pub(super) fn write_entry(text: &mut String, entry: &Entry<Named>) -> Result<(), AllocError> {
    write!(text, "Entry {{ seat: SeatNo({}), event: ", entry.seat.0)?;
    write_event(text, &entry.event)?;
    write!(text, ", reply: ")?;
    write_reply(text, &entry.reply)?;
    write!(text, " }}")
}
