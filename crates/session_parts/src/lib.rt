//! The parts of a session, tied together: what a session keeps, and changes of a session made on all of
//! it (ORC: an `ExecutionSession`'s state, and what its operations do to it).
//!
//! `Parts` has the dylibs with their tables, the instances with their readiness, the units with their
//! jobs, the generators, the trackers, code memory and the book of queries. Each of them keeps its own
//! invariant; `specs/Tied` says what ties them to the plain session of the definitions. The contract of
//! each change is that the parts were those of a session, and are now those of the session so changed
//! (`AreParts`). `settle` is what follows an entry: the session has settled, and the ends of its queries
//! are noted. `Units`, `Stored` and `Tied` state the ties, `Ends` and `Dues` what settling does, `Defined` how a
//! unit is entered.
//!
//! Read `session_model` for the definitions, and `session_replies` next, which only looks.
#![tactic(auto)]

mod claiming;
mod defining;
mod lodging;
mod making;
mod memory;
mod parts;
mod phases;
mod removing;
mod resolving;
mod settling;

pub use defining::{NewUnit, Undefined};
pub use lodging::note_of;
pub use parts::Parts;
