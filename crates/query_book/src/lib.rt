//! The queries of a session, and how they settle (ORC: `AsynchronousSymbolQuery`). A query waits for
//! the instances that it matched; it settles at the first entry after which all of them are at its
//! level, or one of them failed or is gone.
//!
//! Contracts see a `Book` as the list of its queries by number, each with its end if it has one, its
//! notifier until that is fired or given back, and what it waited for when it was last looked at; and
//! the units that are to be handed out. `settle` is told which instances changed, and looks at their
//! queries alone: an instance has a list of the queries that wait for it, and a query the count of
//! what it still waits for. `lodge` makes all room, so that settling takes no memory.
//!
//! A caller carries on that its book is current (`IsCurrent`): a new book is, `settle` leaves it so, and
//! `lodge` and what hands out keep it so. Where how the instances stand has changed since, it tells
//! `settle` the instances that changed (`change_is_told`). Over the rows of a session when a query is met
//! and how it ends are what the session says (`stands_as_the_session`).
//!
//! Read `notifiers` for who is told, and `session_model` for when a query is met.
#![tactic(auto)]

mod board;
mod book;
mod ends;
mod laws;
mod lists;
mod marks;
mod rows;
mod standing;

pub use book::Book;
pub use ends::{Collected, QueryEnd};
pub use laws::{
    change_is_told, changes_are_one, current_is_told, handing_out_is_current, nobody_is_current,
    seen_is_current, stands_as_the_session,
};
