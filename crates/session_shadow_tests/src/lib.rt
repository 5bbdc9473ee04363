//! Tests of `session_shadow`, and so of the session below it: worked sessions, whose journals were written
//! by hand from the rules of a session. Each entry is compared, and each answer that makes none; the session
//! beside judges each of them too. Together they have every event with every reply, but for the limits.
//!
//! They stand in a crate of their own, so that they don't prove `session_shadow` again.
#![tactic(auto)]

#[cfg(test)]
mod tests;
