//! What a session promises its clients, as laws of every legal history: when a lookup ends and with what, who
//! fails at a failure, and what a run from an intact symbol does. No thread is in them.
//!
//! Each law is the contract of a function with an empty body. `specs/Laws` has the laws, the other files what
//! they speak of. Read `session_model` first, and `memory_laws` for the memory of an intact symbol.
#![tactic(auto)]

mod laws;

pub use laws::{
    failed_where_lost, failure_hits_those, found_are_few, found_is_ready, found_stays_ready,
    found_where_settled, intact_has_closure, intact_runs_as_linked, nothing_else_fails,
    objects_have_closures, rows_are_few,
};
