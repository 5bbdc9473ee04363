//! A session each answer of which is judged, as it is made, by a plain session beside it.
//!
//! A `Shadow` is the plain session that the journal of a session leads to; `Follows` (`specs/Follows`) says so.
//! `Shadow::follow` plays the entry that the journal has gained, and tells whether its reply is a right one by
//! the definitions. `fit` gives a call what the session asks of its arguments at that journal: a place the
//! unit's own shape, an emit its own groups and bytes; a call that nobody may make is passed over. Contracts
//! say both. `Judged` is a session with its shadow: any call of any seat can be made on it.
//!
//! That the answer is its entry's reply, and that answers without an entry come just when they may, is judged
//! too (`judging`), and of these judgements no contract speaks. That the entry is the call's own, with the
//! arguments that were handed in, isn't judged. Units are those that are given by lists.
//!
//! Read `session_player` first, for the calls, and `session_check`, for the judge.
#![tactic(auto)]

mod fitting;
mod judged;
mod judging;
mod shadow;

pub use fitting::fit;
pub use judged::{Judged, Made};
pub use shadow::Shadow;
