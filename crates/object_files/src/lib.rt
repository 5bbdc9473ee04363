//! The objects of a command line: each file that the words name is read once, in the order of first
//! mention, and becomes a unit of a session (JITLink: `createLinkGraphFromObject` for each buffer; ORC:
//! `ObjectLayer::add`).
//!
//! `distinct_files` finds the files, and `load_files` makes their units, or answers the first file that
//! wasn't taken in and why. Contracts see files by their contents, as far as the files tell them, and
//! units by their meaning; `specs/Files.antt` says which units some files are, all by one table of
//! names, and what stops a load. The work is linear in the names and the bytes. A file's bytes are
//! given up once they are read as an object, and the object once it has a graph.
//!
//! Read `orc_io` for files, `elf_read` and `link_graph` for objects, and `session_units` for units.
#![tactic(auto)]

mod distinct;
mod error;
mod load;
mod object;

pub use distinct::{Distinct, distinct_files};
pub use error::{LoadError, ObjectWhy};
pub use load::{TOTAL_LIMIT, load_files};
