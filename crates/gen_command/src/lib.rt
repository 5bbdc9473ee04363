//! `orc gen`: the session of n generated objects is made and run, and what it came to is counted and put in words.
//! What is found is that text and an answer; nothing is written here.
//!
//! `summary` has the text, or the stop of the call that ended it, which is never want of a place where the journal
//! has enough of them. `find_summary` keeps `IsFound` (`specs/Found`). Read `generated_session` for what the session
//! and its calls are, and `script_session` for how they are made.
#![tactic(auto)]

mod finding;
mod laws;
mod session;
mod stops;
mod telling;

pub use finding::{SummaryFound, find_summary};
pub use laws::gen_answers_are_kept;
pub use session::summary;
