//! What the memory of a closure and the tables of a session rest on: laws of every legal history, on
//! what a session keeps of its units' names, bindings, addresses and dependencies, and of its
//! instances' names, homes, levels and queries.
//!
//! Each law is the contract of a public function with an empty body, so that a crate above may
//! cite it. The statements are in `specs/`, in plain words above each. Of a closure: `Instances`
//! (which names a unit's instances are), `Links` (what its externals matched), `Bindings` (what it
//! is bound to, and that addresses stay), `Aliases` (where an alias stands), `Bound` (what a unit
//! has once it is done, and that it keeps it) and `Dependencies` (what an emitted instance depends
//! on). Of tables: `Names` (a name has one present instance in each dylib at most), `Homes` (which
//! dylib, unit and tracker each row is of), `Levels` (what came to a level stays at it or is lost,
//! and what is lost stays so), `Queries` (a unit has one link query at most), `Presence` (what was
//! searched stays present until it is removed) and `Quiet` (which events settle no query).
//!
//! There is no code here, so nothing is tested, and no wrong body can be tried. The definitions are
//! in `session_model`, and the laws that these are proved from in `session_laws`; read their
//! `specs/` first.
#![tactic(auto)]

mod aliases;
mod bindings;
mod bound;
mod dependencies;
mod homes;
mod instances;
mod levels;
mod links;
mod names;
mod presence;
mod queries;
mod quiet;

pub use aliases::aliases_stand;
pub use bindings::{
    addresses_stay, bindings_are_ends, bindings_are_matches, bound_addresses_are_kept,
    failures_stay,
};
pub use bound::{done_is_bound, done_stays};
pub use dependencies::dependencies_are_kept;
pub use homes::{rows_have_homes, unspent_have_trackers};
pub use instances::{instances_are_live, instances_are_offered, units_fit};
pub use levels::{levels_stay, losses_stay};
pub use links::{bound_by_name, links_are_lookups, unbound_is_weak};
pub use names::names_are_once;
pub use presence::searched_stay_present;
pub use queries::{linked_unit_is_there, unit_is_linked_once, unlinked_has_no_query};
pub use quiet::quiet_settles_none;
