//! What an event does to the parts of a session: its reply is decided, and its change is made (ORC: what an
//! `ExecutionSession` does while it holds its lock).
//!
//! A step is a method of `Live`, the parts and the journal. Its contract says that the reply is a right one
//! after the journal so far, that the parts have gone on by it (`specs/Steps`), and that nothing else has
//! changed. `specs/Performs` and `specs/Fires` say what an event has done once it is entered, and
//! `specs/Rest` what a session is from one call to the next.
//!
//! Read `session_parts` first, for the changes, and `execution_session` next, which enters each step.
#![tactic(auto)]

mod attachments;
mod definitions;
mod dylibs;
mod emitting;
mod failing;
mod imaging;
mod jobs;
mod linking;
mod live;
mod lookups;
mod offered;
mod placing;
mod removal;
mod resolving;
mod trackers;
mod turning;

pub use jobs::{Flags, HandedOut, TakenUnit};
pub use live::{Live, entry_count};
pub use offered::Offered;
