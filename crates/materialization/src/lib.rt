//! What a seat does for a unit whose job it took: which call comes next, by what the last one was
//! answered (ORC: the work of a `MaterializationTask`).
//!
//! A job is a `Stage`, which says its next call. `first_stage` begins it by the take's reply,
//! `next_stage` goes on by a call's, and `stopped_stage` ends it where a call was stopped. Whoever
//! makes the calls, on a session of its own or on a shared one, goes by these. Contracts say what a
//! stage is by `specs/Stages`. `specs/Rest` says which entries a stage begins, by the session's
//! definition of a job, and what its seat has. That the calls of a job are right ones, and that its
//! entries are those of one job, are laws of every legal history, each the contract of a public
//! function with an empty body: call by call in `specs/Laws`, for whoever makes the calls, and for a
//! whole job in `specs/Driving`. Read `session_model` (`specs/Calls`) and `history_laws` first.
#![tactic(auto)]

mod laws;
mod stage;

pub use laws::{
    driven_job_is_one, full_is_cause, job_begins, job_goes_on, may_give_up, others_leave_a_job,
    refused_edge_fails, stop_cuts_job, stopped_job_fails,
};
pub use stage::{Stage, first_stage, next_stage, stopped_stage};
