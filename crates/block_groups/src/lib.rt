//! The dependence groups of a unit: which of its instances stand in each block, and which bound externals
//! each block needs.
//!
//! It states ORC's `SymbolDependenceGroup`s by the definitions of `specs/Groups`: the result of `groups_of`
//! are the groups of the graph. A block needs an external where an edge of a block that it reaches refers
//! to it, so each bound external is searched for backwards, from the blocks that refer to it over the
//! edges that lead to them. The work is linear in the graph and, for each external, in the edges that lead
//! to the blocks that need it. Read `session_units` next.
#![tactic(auto)]

mod backwards;
mod groups;
mod lists;
mod members;
mod needing;

pub use groups::groups_of;
