//! Lists of calls, of any seats and in any order, that are made on a session.
//!
//! A `Call` is one event with its arguments. `make` makes one; `play` makes a list of them, one after the
//! other, up to the first that is stopped. Contracts say with `Does` what one call does to the journal, and
//! with `Plays` (`specs/Plays`) how a list leads from journal to journal. `one_log` has the law that the
//! definitions leave a list of calls one journal alone, but for the handles to its units. The conditions of
//! calls (`specs/Fits`) are those of the session's events, each at the journal that the calls before led to.
//!
//! Read `execution_session` first, for what one event does.
#![tactic(auto)]

mod call;
mod laws;
mod player;

pub use call::{Call, SeatCall};
pub use laws::{calls_grow, one_history};
pub use player::{Stopped, make, play};
