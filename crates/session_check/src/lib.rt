//! A checker of session histories: whether each entry's reply is a right one after the entries before
//! it, and which entry is the first whose reply isn't.
//!
//! `first_wrong` plays a history entry by entry on a `PlainSession` and the ends of its queries
//! (`replay`, which a caller can do too, as a journal grows). Before each entry it asks whether the reply
//! is right (`answers` for what is answered without a unit, `calls` for the calls on one); then the
//! session enters it. The contracts of `first_wrong` and `is_legal` are the definition of a legal history,
//! the limits of an order and of a lookup included.
//! A unit's dependence groups and its refusal are part of right replies, so the units of a history
//! that is checked are `Sample`s, which can compute these; `KnownUnit` is one that is given by lists.
//! A history that is checked has fewer than 2 ^ 32 entries.
//!
//! Read `session_model` for the definitions and `session_plain` for the functions that are used here;
//! `judging_tests` has whole sessions and lies about them.
#![tactic(auto)]

mod answers;
mod calls;
mod known;
mod legal;
mod replay;
mod sample;

pub use calls::own_instances;
pub use known::KnownUnit;
pub use legal::{first_wrong, is_legal};
pub use replay::{empty_session, play};
pub use sample::Sample;
