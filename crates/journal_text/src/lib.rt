//! The text of a session's journal: a line for each entry, with its number, the caller's seat, the
//! event and the reply, in words.
//!
//! Contracts see the text as `text_of_history` of the plain history and the table of names.
//! `specs/Events` and `specs/Replies` have a line for each event and each reply, in the words of the
//! grammar; `specs/Parts` has the lists and names in them. Numbers are decimal, and addresses
//! lower-case hexadecimal without leading zeros, as `text_parts` puts them. A list that is empty is left
//! out with the space before it.
//!
//! Read `session_model` first for what the events and replies mean, and `orc_names` for the names.
#![tactic(auto)]

mod events;
mod known;
mod laws;
mod lists;
mod parts;
mod replies;
mod text;

pub use known::{are_given, are_known, is_given, knows_reply};
pub use laws::{entry_is_read, history_is_read, line_is_read, text_is_read};
pub use parts::put_named;
pub use replies::put_reply;
pub use text::text_of;
