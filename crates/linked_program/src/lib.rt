//! The session of a program's run: its units are defined in one dylib, its entry is looked up at Ready, and
//! the memory is copied once it is found. Worker threads do jobs beside the lookup.
//!
//! `run_laws` says which history that is, whatever the threads did: seat 0 sets up, seat 1 is the client,
//! and the seats after it do jobs alone. Read `link_worker` first.
#![tactic(auto)]

mod client;
mod concluding;
mod members;
mod program;
mod setting_up;

pub use program::{LinkedProgram, Program, link};
