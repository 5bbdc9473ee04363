//! All that a session keeps of its units but for which tracker owns each (ORC: `MaterializationUnit`,
//! and of `MaterializationResponsibility` the seat), and the jobs that it has for its callers (the tasks
//! that a session hands to its dispatcher). Jobs form one list, first in, first out.
//!
//! Contracts see `Units` as a `Roster`: the units by number, the jobs that are listed, oldest first, and
//! for how many more units there is room. `specs/Changes` has a function for each way in which a unit
//! goes on, and `proofs/Rows` that it is the session's own definition on the row of the unit. Only `room`
//! takes memory: a unit is added with the room for its two jobs, so that nothing else can fail.
//!
//! Read `tracker` next, for which tracker owns a unit.
#![tactic(auto)]

mod jobs;
mod unit;
mod units;

pub use unit::Unit;
pub use units::Units;
