//! The history of a script's session: seat 0 sets up, each client makes the calls of its lines, one line
//! after the other, and worker seats do jobs beside them. What that is, and how each line ends.
//!
//! `specs/Lines` says which calls a line makes and what comes of it, by the history alone; `specs/Scripts`
//! what the whole history is. No thread is in them: they are of one history, whatever the threads did.
//!
//! Read the calls of a seat in `session_model`, and `run_laws`, which is the same for a program's run.
#![tactic(auto)]

mod calls;
mod laws;
mod line_end;
mod names;
mod promises;

pub use calls::{ClientCall, Lookup, Plan, SetUpCall};
pub use laws::dylibs_are_made;
pub use line_end::{LineEnd, ScriptEnd};
pub use names::{GivenMatch, GivenNames};
pub use promises::script_keeps_promises;
