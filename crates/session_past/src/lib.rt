//! What depends on the entries before: where each query of a session settled and how it ended, what a
//! collect and a take are answered by that, and whether the cause of a fail is there.
//!
//! `Ends` stands beside a `PlainSession`, and `update_ends` keeps it through one more entry; contracts
//! say with `AreEnds` that it has the end of each query after a history. `fits` has the laws that a
//! session meets the conditions of `session_plain`'s functions along a legal history.
//!
//! Read `session_plain` first, and `session_check` next, which puts both together.
#![tactic(auto)]

mod causes;
mod ends;
mod fits;
mod taking;

pub use causes::{Call, has_cause};
pub use ends::{Ends, Settled, update_ends};
pub use fits::{empty_is_fit, fit_stays, fit_suits};
pub use taking::{held_count, reply_collect, reply_of_job};
