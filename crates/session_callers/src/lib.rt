//! What a caller of `execution_session` has of its contract: each function here is one call, and its clause
//! is what the call promises. Its wrong bodies turn what was handed in or what came back, by another seat,
//! another number or an answer that has no entry, and the gate sees each refused; so the contract of a
//! crate whose own wrong bodies take too long for the gate is tried there all the same.
//!
//! Nothing stands on it. Read `execution_session`.
#![tactic(auto)]

pub mod script;
pub mod session;
