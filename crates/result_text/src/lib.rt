//! The text of how a script's lines ended: a line for each line of each client, `cC lL RESULT`, with the
//! client and the line numbered from 1.
//!
//! Contracts see the text as `text_of_ends` of the table of names, of the names that each line looks up, and
//! of how each line ended. `specs/Results` has a line for each kind of result, and `specs/Known` which names
//! must be of the table.
//!
//! Read `script_model` first for how lines end; `journal_text` has the texts of replies, and `exec_run` those
//! of the ends of runs.
#![tactic(auto)]

mod clients;
mod known;
mod lists;
mod lookups;
mod results;
mod stops;

pub use clients::text_of_results;
pub use known::are_known_ends;
