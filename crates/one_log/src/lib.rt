//! Two calls that ask for one run without workers write one log.
//!
//! The law is the contract of a function with an empty body; there is no code here. It speaks of what a call
//! of the program promises, `run_answers::OfSession`, and says what is then the same in two of them. Of its
//! premises (`specs/Alike`) the words and the files give the first ones; that the journal isn't full is so of
//! `orc`, by its clause `never_full`. That the names of two sessions get the same numbers is promised nowhere.
//! Read `run_answers` first.
#![tactic(auto)]

mod histories;
mod laws;

pub use histories::{one_history, one_history_with_places, whole_runs_are_one};
pub use laws::one_log;
