//! `orc session`: the script on the source is read, then its files, and its session is run by clients and
//! workers on threads. What it finds is the text of the session's journal with the result of each line, and an
//! answer; nothing is written here.
//!
//! Read `session_script` for the grammar, `script_plan` for what a script's lines call, `script_session` for the
//! session, and `journal_text` and `result_text` for the texts.
#![tactic(auto)]

mod answer;
mod command;
mod laws;
mod loading;
mod names;
mod notes;
mod reading;
mod texts;

pub use command::{SessionFound, find_session};
pub use laws::session_answers_are_kept;
pub use names::session_says_its_names;
