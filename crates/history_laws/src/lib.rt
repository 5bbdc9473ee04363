//! What a seat that holds units may rely on while other seats go on: laws of every legal history.
//!
//! A seat that has seen a history makes its next call after entries of others that it hasn't seen. A
//! unit that it holds is left as it is by them, or removed; so what it knew to be right for a place, an
//! emission or a fail is right still. Each law is the contract of a public function with an empty body,
//! so that a crate above may cite it; the statements are in `specs/`: `Holders` (what others leave of a
//! unit) and `Conditions` (the conditions of a seat's calls). There is no code here. Read
//! `session_laws` (`specs/Holding`) and `execution_session` first.
#![tactic(auto)]

mod conditions;
mod holders;
mod laws;
mod notices;

pub use conditions::{emit_stays, fail_stays, place_stays, source_stays};
pub use holders::{last_replies_stay, others_give_none};
pub use laws::{
    collect_is_noted, empty_is_noted, lodging_is_told, note_is_asked, quiet_is_noted,
    settling_is_told, take_is_noted,
};
pub use notices::{ended_are_told, told_have_ended};
