//! The units of a session (ORC: `MaterializationUnit`): the graph of an object, a list of absolute
//! symbols, or an alias, each a `UnitKind`.
//!
//! What a unit is, `specs/Meaning.antt` says of a graph by the definitions of `link_model`, and
//! `specs/Others.antt` of the others: offers, shape, addresses, externals, image, groups and refusal.
//! Contracts see an `ObjectUnit` by that meaning. The graph and its plan are held by an `Arc`, so that a
//! share of a unit is cheap and nothing is laid out anew. `finish` makes what an emit hands in. Read
//! `session_model` for what a session asks of a unit, and `link_worker` for who emits it.
#![tactic(auto)]

mod absolute_unit;
mod alias_unit;
mod bindings;
mod finishing;
mod graph_unit;
mod offers;
mod parts;
mod unit;

pub use absolute_unit::AbsoluteUnit;
pub use alias_unit::AliasUnit;
pub use finishing::finish;
pub use graph_unit::GraphUnit;
pub use unit::ObjectUnit;
