//! Tests of `journal_text`: lines that were written by hand from the journal's grammar.
//!
//! They stand in a crate of their own, so that they don't prove `journal_text` again.
#![tactic(auto)]

#[cfg(test)]
mod tests;
