//! Tests of `execution_session`: lookups from the first call to the image, units that are removed or
//! given up, names that clash, externals, calls out of turn, limits, journals of few places, orders and
//! lookups of no item, one and two, and each small reply.
//!
//! They stand in a crate of their own, so that they don't prove `execution_session` again. Expected replies
//! are worked out by hand from the rules of a session.
#![tactic(auto)]

#[cfg(test)]
mod tests;
