//! What a caller of `exec_run` has of its contract: the function here is one call, and its clauses are
//! what the call promises. Its wrong bodies turn what was handed in or what came back, by another
//! address, one instruction or a lost byte, and the gate sees each refused; so the contract of a crate
//! whose own wrong bodies take too long for the gate is tried there all the same.
//!
//! Nothing stands on it. Read `exec_run`.
#![tactic(auto)]

pub mod graph;
pub mod run;
