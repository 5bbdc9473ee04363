//! What a session answers to an event that leaves it as it was: who is refused, and why (ORC: the errors
//! that an `ExecutionSession` and its dylibs and trackers report).
//!
//! Each call looks at the parts of a session, takes no memory and changes nothing. Where it answers a
//! reply, that reply is the right one and nothing changes by it (`Refuses`); where it answers none, its
//! contract says what is so (`specs/Accepted`): what the event will be answered, and what the change
//! asks for. The definitions try the reasons in an order, and so do the bodies. A call on a unit is
//! turned away by the unit's phase and by the seat that holds it (`specs/Turned`).
//!
//! Read `session_parts` for the parts and for the changes; `lookups` has what lookups match.
#![tactic(auto)]

mod asking;
mod calls;
mod chains;
mod definitions;
mod dylibs;
mod emitting;
mod jobs;
mod linking;
mod lodging;
mod looked;
mod shown;
mod trackers;

pub use asking::match_ask;
pub use calls::{Call, turn_away};
pub use definitions::{lacks_room, refuse_attach, refuse_define, refuse_generate};
pub use dylibs::{refuse_dylib, refuse_order};
pub use emitting::bad_dependency;
pub use jobs::{first_job, kept};
pub use linking::match_link;
pub use lodging::lodged_reply;
pub use looked::Looked;
pub use trackers::{refuse_move, refuse_remove, refuse_tracker};
