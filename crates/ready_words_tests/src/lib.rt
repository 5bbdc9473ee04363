//! Tests of `ready_words`: what one pass of a session posts the other is told without the turn.
//!
//! They stand in a crate of their own, so that they don't prove `ready_words` again.
#![tactic(auto)]

#[cfg(test)]
mod tests;
