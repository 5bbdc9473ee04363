//! The script of a session, read from bytes: what is set up first, and then for each client the calls
//! that it makes, a line each.
//!
//! Contracts see a script as the record of its lists, and `read_script` as `script_of`, the script that
//! the grammar gives for the bytes or the first bad line with the first reason that applies to it.
//! `specs/Scripts` has what is asked of every line, `specs/Setup` and `specs/Client` a definition for
//! each kind of line, `specs/Forms` and `specs/Words` the forms of its words, and `specs/Known` what a
//! line finds of the lines before it. Declared names are looked up by a hash, so the work is linear in
//! the bytes; strangers write scripts, so the caller hands in a hasher whose seed they can't know.
//!
//! Read `orc_names` first for the names, and `session_model` next for the events that the lines are of.
#![tactic(auto)]

mod client;
mod error;
mod files;
mod forms;
mod key;
mod limits;
mod lists;
mod names;
mod read;
mod reader;
mod script;
mod setup;
mod table;
mod words;

pub use error::{ScriptError, ScriptWhy};
pub use files::FileTable;
pub use limits::{
    ARG_LIMIT, CLIENT_LIMIT, FILE_LIMIT, FUEL_LIMIT, LINE_LIMIT, NUMBER_LIMIT, SIZE_LIMIT,
};
pub use read::read_script;
pub use script::{AliasLine, ClientLine, LookupLine, Order, Script, SetupLine};
