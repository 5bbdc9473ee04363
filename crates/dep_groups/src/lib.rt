//! Which instances of a session are ready, kept as groups of instances are emitted, so that nobody
//! has to search: an instance is ready where it and all that it reaches through dependencies is
//! emitted (ORC: `SymbolState::Ready`); and what a failure hits: all that reaches what failed.
//!
//! Contracts see a `Frontier` as the list of instances by number, each as not emitted or as emitted
//! with its dependencies, what became ready at the last emission and what the last failure hit.
//! Inside, the groups lie one behind another in flat tables (`nodes`). Each group that waits is linked
//! to an instance that it reaches and that isn't ready, and stands in that instance's queue (`links`);
//! following links ends at an instance that isn't emitted. An emission looks again only at those that
//! stand in the queue of what became ready, and a search goes by links first. `resolve` decides one
//! group, `wake` those that it leaves. A failure, in `fail`, goes by the mentions of what it hits from
//! group to group, and takes what it hit out of them, as if it had never been emitted. `pending` counts
//! what an instance waits for, by a search of its own.
//!
//! Read `graph_walks` for what is reached.
#![tactic(auto)]

mod add;
mod emit;
mod fail;
mod frontier;
mod graph;
mod hits;
mod links;
mod marks;
mod nodes;
mod pending;
mod places;
mod prepare;
mod resolve;
mod seek;
mod slot;
mod trail;
mod wake;

pub use frontier::Frontier;
