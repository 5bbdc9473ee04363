//! What a session is: the plain lists of a session, one step of it, and a history of steps, in the
//! terms of "ORC Design and Implementation".
//!
//! Contracts see a history as a list of `Entry`, and the session after it as the record `Plain` of
//! lists without an index. `specs/` is what a reader of the whole project must believe: `Meaning`
//! (what a unit is), `Plain` (what a session has), `Match`, `Reach` (readiness), `Query`, `Change`
//! (what a reply does), `Answer` (which reply is right), `History` (legal histories and the state
//! after one), and `Seat`, `Calls` and `Owed` for the callers. `docs/DEFINITIONS.md` reads them
//! aloud. The traits `UnitKind`, `RowSource` and `Standing` are what the parts of a session ask of
//! each other; `DepList` is a list of dependencies that many instances share.
//!
//! Read `session_laws` next for what follows from the definitions.
#![tactic(auto)]

mod change;
mod copying;
mod deps;
mod entry;
mod equality;
mod look_end;
mod peeked;
mod rows;
mod traits;

pub use change::{Change, Verdicts};
pub use copying::copy_reply;
pub use deps::DepList;
pub use entry::{Entry, Event, Finishing, Matches, Order, Reply, WantedList, Why};
pub use equality::same_reply;
pub use look_end::LookEnd;
pub use peeked::Peek;
pub use rows::{
    Dylib, Ending, InstRow, Job, Match, Matched, Phase, Query, Range, Row, Track, UnitPhase,
    Verdict,
};
pub use traits::{RowSource, Standing, UnitKind};
