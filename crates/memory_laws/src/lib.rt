//! A session's memory holds, for each instance that is intact, what a static linker makes of all that it
//! needs: its closure (ORC: what a ready symbol's code may rely on).
//!
//! `specs/Closures` says what the units of a session are to a static linker: members, and one map from
//! symbols to where they are. The law is the contract of a function with an empty body; there is no code
//! here. Read `static_links` and `closure_laws` first.
#![tactic(auto)]

mod ends;
mod laws;
mod links;
mod maps;
mod names;

pub use ends::{ends_are_one, ends_exist, ends_stand_there};
pub use laws::intact_holds_closure;
pub use links::{memory_holds_program, program_is_linked_by_names, ready_name_has_program};
pub use maps::{blocks_are_there, closures_are_there, intact_ends_stand_there, map_is_there};
pub use names::{ask_comes_first, names_are_defined, names_stay};
