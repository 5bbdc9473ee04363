//! Tests of `instances`: a unit that is emitted, one that fails, one that is removed and an instance
//! that is replaced, and what of it is told.
//!
//! They stand in a crate of their own, so that they don't prove `instances` again. What is expected was
//! worked out by hand from how each instance stands.
#![tactic(auto)]

#[cfg(test)]
mod dep_groups_tests;
#[cfg(test)]
mod instance_graph_tests;
#[cfg(test)]
mod instances_tests;
#[cfg(test)]
mod query_book_tests;
