//! Tests of `link_worker`: a lookup that uses a generator and does its own jobs, and lookups that are
//! refused or stopped.
//!
//! They stand in a crate of their own, so that they don't prove `link_worker` again. Expected ends are
//! worked out by hand from the rules of a session.
#![tactic(auto)]

#[cfg(test)]
mod link_worker_tests;
#[cfg(test)]
mod shared_session_tests;
#[cfg(test)]
mod turn_lock_tests;
