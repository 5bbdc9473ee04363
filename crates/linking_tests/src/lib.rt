//! Tests of `link_graph`: graphs of an object that an assembler makes, and of one whose padding is left
//! to the linker, and what is answered to both with some bytes changed.
//!
//! They stand in a crate of their own, so that they don't prove `link_graph` again. Expected values are
//! those of the standards' words, and of GNU ld, which deletes the same bytes.
#![tactic(auto)]

#[cfg(test)]
mod generated_objects_tests;
#[cfg(test)]
mod link_graph_tests;
#[cfg(test)]
mod session_units_tests;
#[cfg(test)]
mod unit_fixups_tests;
