//! Words for what a session answers and tells, as tests write them down: a reply stands as its name,
//! with what it holds in brackets, and an id as its type's name with the number.
//!
//! Only crates of tests stand on it, so that no crate below has to print what no program prints.
//! Read `session_model` for what the replies mean.
#![tactic(auto)]

mod answers;
mod heard;
mod lists;

pub use answers::{write_answer, write_reply, write_stop};
pub use heard::write_heard;
pub use lists::write_matches;
