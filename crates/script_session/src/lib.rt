//! The session of a script: seat 0 sets it up, clients make the calls of their lines beside each other, and
//! workers do jobs beside them, each on a thread of its own where there are threads.
//!
//! `run_script` is handed what to call, with all units made (`Plan`), and answers the session with how each
//! line ended. `script_model` says which history that is, whatever the threads did. No line is read here, and
//! no text written.
//!
//! Read `script_model` and `link_worker` first.
#![tactic(auto)]

mod client;
mod lines;
mod members;
mod session;
mod setting_up;

pub use session::{Notified, ScriptSession, run_script};
