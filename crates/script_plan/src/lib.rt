//! The plan of a script: what its lines call, with their units made (`plan_of`).
//!
//! A line that names a file gets a share of the file's unit, so that an object is laid out once, however many
//! lines name it. Each line of absolute symbols and each alias gets a unit of its own. The notes go to the watch
//! lines, in order.
//!
//! `specs/Asked` says what a script asks for, by its lines and by what the files' units are, and `specs/Notes`
//! where the notes of a plan are.
//!
//! Read `session_script` for the lines and `script_model` for plans first, and `script_session` next, which runs
//! them.
#![tactic(auto)]

mod clients;
mod parts;
mod plan;
mod set_up;
mod unit_counts;

pub use plan::{Planned, plan_of};
