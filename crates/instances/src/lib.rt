//! The instances of a session, each an accepted definition of a name (ORC: `SymbolTableEntry`), how far
//! each has come, and where those of each unit stand. A change of a unit's instances costs as many as it
//! has, and one of single instances costs those.
//!
//! Contracts see `Instances` as the list of rows by number, how many units they are of, and for how many
//! more instances and units there is room; and say each change by the definitions of `session_model`.
//! `define` takes no memory, since `room` made it; only `emit` may want some, for lists of dependencies:
//! `prepare` takes it, and `emit_prepared` does the rest.
//!
//! Read `jit_dylib` for which names of a unit stay, and `dep_groups` for which instances a failure hits.
#![tactic(auto)]

mod failure;
mod graph;
mod groups;
mod inst_set;
mod instances;
mod laws;
mod removal;
mod roots;
mod row;
mod rows;
mod span;
mod standing;

pub use graph::InstanceGraph;
pub use groups::Prepared;
pub use instances::Instances;
pub use laws::tells_on;
pub use row::address_of;
pub use span::Span;
