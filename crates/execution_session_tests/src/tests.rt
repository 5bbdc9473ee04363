//! Tables of calls on a session, with their answers. A test plays its tables one after the other, on a session
//! of its own with so many places in its journal, and says how many entries there are in the end.
//!
//! An answer stands in a table as the reply is printed, and then what else the call gave: `, unit back`,
//! `, notifier back`, `, with its unit`, and the note of a notifier that was told, with what it has heard. A
//! notifier of which no answer tells was not told. Where a row is answered otherwise the test says which
//! row of which table that is, and how it was answered.

mod calls;
mod endings;
mod entries;
mod few_places;
mod handed_back;
mod items;
mod limits;
mod lookup;
mod names;
mod parts;
mod play;
mod ready;
mod replies;
mod turns;
mod units;

use calls::Call;
use orc_ids::SeatNo;
use play::Step::By;
use play::Table;
use units::FIRST;

/// The seat that makes the dylib, and defines in it.
const SETUP: SeatNo = SeatNo(0);

/// The seat that looks up and materializes.
const SEAT: SeatNo = SeatNo(1);

/// A seat that takes no job.
const OTHER: SeatNo = SeatNo(2);

/// What the first definition of one name is answered.
const DEFINED: &str = "Ok(Defined(UnitId(0), InstId(0), 1))";

/// What the first lookup that waits is answered.
const WAITS: &str = "Ok(Pending(QueryId(0)))";

/// The first two calls: a dylib, and a tracker of it.
const BEGUN: Table = &[
    By(SETUP, Call::Dylib(7), "Ok(Made(DylibId(0)))"),
    By(SETUP, Call::Tracker(0), "Ok(Tracker(TrackId(0)))"),
];

/// The first three calls: a dylib, a tracker, and a definition of name 0.
const PREPARED: Table = &[
    By(SETUP, Call::Dylib(7), "Ok(Made(DylibId(0)))"),
    By(SETUP, Call::Tracker(0), "Ok(Tracker(TrackId(0)))"),
    By(SETUP, Call::Define(0, 0, FIRST), DEFINED),
];

/// The first four calls, the last of which is a lookup of name 0.
const ASKED: Table = &[
    By(SETUP, Call::Dylib(7), "Ok(Made(DylibId(0)))"),
    By(SETUP, Call::Tracker(0), "Ok(Tracker(TrackId(0)))"),
    By(SETUP, Call::Define(0, 0, FIRST), DEFINED),
    By(SEAT, Call::LookUp(0, None), WAITS),
];

/// The first six calls: the unit of name 0 is looked up, taken and placed.
const PLACED: Table = &[
    By(SETUP, Call::Dylib(7), "Ok(Made(DylibId(0)))"),
    By(SETUP, Call::Tracker(0), "Ok(Tracker(TrackId(0)))"),
    By(SETUP, Call::Define(0, 0, FIRST), DEFINED),
    By(SEAT, Call::LookUp(0, None), WAITS),
    By(SEAT, Call::TakeAndPlace(0), "Ok(Placed(268435456))"),
];

/// After `PLACED` the unit is resolved and linked; then it is taken again and emitted.
const EMITTED: Table = &[
    By(SEAT, Call::Resolve, "Ok(Resolved)"),
    By(SEAT, Call::Link, "Ok(Done(QueryId(1)))"),
    By(SEAT, Call::TakeAndEmit, "Ok(Emitted)"),
];
