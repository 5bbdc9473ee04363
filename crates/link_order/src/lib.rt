//! Which definitions the names of a lookup stand for: each name is matched once, in the dylibs of a
//! search order, and a search that can't go on is refused for the first of four reasons (ORC:
//! `ExecutionSession::lookup`, `JITDylib::lookupImpl`).
//!
//! The rows are those of any `RowSource`; contracts speak of the plain session that it shows. A search
//! costs the names that it looks for times the dylibs that it goes through, each a question to the
//! source. Read `session_replies` next, which asks and links by it.
#![tactic(auto)]

mod error;
mod matching;
mod search;

pub use error::MatchError;
pub use matching::{match_all, match_names};
