//! Objects made from a number: the object of each of n functions, which call each other in rings of seven.
//!
//! `specs/Rings` says which function is called by which, and `specs/Objects` what the object of one is, and
//! which texts a session of all of them has. `object_of` makes such an object, which is canonical as `elf_write`
//! says; `graph_of_function` makes the link graph that `link_graph` defines for it, by the numbers of those texts.
//!
//! Read `elf_read` for what an object is. `generated_session` says what the session of them is.
#![tactic(auto)]

mod graph;
mod laws;
mod names;
mod object;
mod rings;

pub use graph::graph_of_function;
pub use laws::generated_objects_are_canonical;
pub use names::{DYLIBS, function_name};
pub use object::object_of;
pub use rings::{RING, next};
