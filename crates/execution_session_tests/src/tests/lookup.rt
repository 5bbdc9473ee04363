//! One lookup of a unit of 48 bytes, call by call.

use super::calls::Call;
use super::play::Step::{By, Journal};
use super::play::{Table, plays};
use super::{PREPARED, SEAT, WAITS};

/// Each entry with its seat, its event and its reply.
const ENTRIES: [&str; 12] = [
    "Entry { seat: SeatNo(0), event: Dylib(NameId(7)), reply: Made(DylibId(0)) }",
    "Entry { seat: SeatNo(0), event: Tracker(DylibId(0)), reply: Tracker(TrackId(0)) }",
    "Entry { seat: SeatNo(0), event: Define(DylibId(0), TrackId(0), \
     Named { name: NameId(0), weak: false, wants: None, more: 47 }), \
     reply: Defined(UnitId(0), InstId(0), 1) }",
    "Entry { seat: SeatNo(1), event: Ask(Items { items: [OrderItem { dylib: DylibId(0), scope: All }] }, \
     Items { items: [Wanted { name: NameId(0), weak: false }] }, Ready, Some(5)), \
     reply: Pending(QueryId(0)) }",
    "Entry { seat: SeatNo(1), event: Take, reply: Start(UnitId(0)) }",
    "Entry { seat: SeatNo(1), event: Place(UnitId(0), Shape { need: 48, align: 16 }), \
     reply: Placed(268435456) }",
    "Entry { seat: SeatNo(1), event: Resolve(UnitId(0)), reply: Resolved }",
    "Entry { seat: SeatNo(1), event: Link(UnitId(0)), reply: Done(QueryId(1)) }",
    "Entry { seat: SeatNo(1), event: Take, reply: Finish(UnitId(0), Bound(Items { items: [] })) }",
    "Entry { seat: SeatNo(1), event: Emit(UnitId(0), Items { items: \
     [Group { members: Items { items: [InstId(0)] }, deps: Items { items: [] } }] }), \
     reply: Emitted }",
    "Entry { seat: SeatNo(1), event: Collect(QueryId(0)), \
     reply: Found(10, Items { items: [Some((InstId(0), 268435456))] }) }",
    "Entry { seat: SeatNo(1), event: Image, reply: Image }",
];

/// What the emission is answered, with what it tells.
const TELLS: &str = "Ok(Emitted), 5 hears Some(Outcome { query: QueryId(0), end: Found(10) })";

/// What the query's end is.
const FOUND: &str = "Ok(Found(10, Items { items: [Some((InstId(0), 268435456))] }))";

/// The lookup, which is told how it ends.
const LOOKUP: Table = &[
    By(SEAT, Call::LookUp(0, Some(5)), WAITS),
    By(SEAT, Call::TakeAndPlace(0), "Ok(Placed(268435456))"),
    By(SEAT, Call::Resolve, "Ok(Resolved)"),
    By(SEAT, Call::Link, "Ok(Done(QueryId(1)))"),
    By(SEAT, Call::TakeAndEmit, TELLS),
    By(SEAT, Call::Collect(0), FOUND),
    By(SEAT, Call::Image, "Ok(Image) of the unit"),
    Journal(&ENTRIES),
];

#[test]
fn one_lookup_is_twelve_entries(rt: HostRuntime) {
    plays::<64>(&rt, rt.alloc(), &[PREPARED, LOOKUP], "entries: 12");
}
