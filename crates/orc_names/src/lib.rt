//! The names of a session: each text has one number, and a number gives its text back (ORC: the
//! `SymbolStringPool`). The session, the journal and the linker speak of numbers alone.
//!
//! Contracts see a `Names` as the list of its texts, each once: the number of a text is its place
//! there. Interning adds at most one text, at the end, so older numbers stay; `text` undoes `intern`.
//! Strangers choose the names, so a table can be made with a hasher whose seed they can't know.
//! `link_graph`, `session_script` and `journal_text` read these numbers next.
#![tactic(auto)]

mod error;
mod hasher;
mod names;
mod text;

pub use error::NameError;
pub use hasher::NameHasher;
pub use names::{NAME_LIMIT, Names};
