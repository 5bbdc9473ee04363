//! Tests of `jit_dylib`: weak, common and strong names over each other, duplicates, names that go, as many
//! names as a session has instances, and the dylibs by number and by name.
//!
//! They stand in a crate of their own, so that they don't prove `jit_dylib` again. What is expected was
//! worked out by hand from the linkage rules.
#![tactic(auto)]

#[cfg(test)]
mod generators_tests;
#[cfg(test)]
mod jit_dylib_tests;
#[cfg(test)]
mod link_order_tests;
#[cfg(test)]
mod mat_unit_tests;
#[cfg(test)]
mod tracker_tests;
