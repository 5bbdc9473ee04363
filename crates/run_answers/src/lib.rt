//! What the top call of `orc` promises: when each answer comes, and what the output and the log have then
//! gained.
//!
//! The promise is the record `Answers` of `specs/Clauses`, clause by clause. Behind it stand `Answered`
//! (what is found, and then written), `Sessions` (a run's session, and the answer that its journal says),
//! `Lost` (why an entry couldn't be made ready) and `ByNames` (the statically linked program). The laws, which are contracts of functions with empty
//! bodies, say that a call which found its answer so and wrote it keeps the promise.
//!
//! Read `answers`, `command_line`, `object_files` and `run_laws` for what an answer speaks of.
#![tactic(auto)]

mod laws;

pub use laws::{answers_are_kept, never_full};
