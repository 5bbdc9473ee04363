//! The session of n generated objects: what is called in it, what its history is, and what that comes to.
//!
//! Four dylibs link against each other, and each object is defined in one of them, with a tracker of its own.
//! Then one client looks the first function of every second ring up and runs it, removes every third tracker, and
//! looks all functions up. `specs/Scripts` has this as a script, `specs/Runs` which history that is, and
//! `specs/Counts` what is counted in it, and the text of that: `Counts` is what some lines came to. `specs/Laws`, the
//! contracts of functions with empty bodies, say how long a history is: so a journal of a known length is never full.
//!
//! Read `generated_objects` and `script_model` first; `plan` has the calls, and `gen_command` makes them.
#![tactic(auto)]

mod client;
mod counts;
mod definitions;
mod functions;
mod laws;
mod plan;
mod set_up;
mod text;

pub use counts::Counts;
pub use functions::{is_head, is_removed};
pub use laws::{generated_run_is_short, journal_is_never_full};
pub use plan::plan_of;
