//! The history of a program's run, in which seat 0 defines the units, one client looks the entry up, and
//! other seats do jobs: what it is (`specs/Ended`), how it ended (`Linked`), and what follows of it.
//!
//! The laws are contracts of functions with empty bodies: how the lookup can end, and how long the history
//! is. `specs/Runs` says what they rest on. Read `memory_laws` and the calls of a seat in `session_model`
//! first.
#![tactic(auto)]

mod laws;
mod linked;

pub use laws::{lookup_ends_so, run_is_short};
pub use linked::Linked;
