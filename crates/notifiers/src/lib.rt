//! Who is told how a lookup ended (ORC: the `NotifyComplete` of an asynchronous lookup). An `Armed` is
//! a notifier that has heard nothing, and must be spent: it is fired, or its object is handed back. A
//! `Fired` has heard one outcome. Each has the number that its note says. What a notifier has heard, and
//! which one it is, is known by these types, so that nothing has to be remembered of it while it is kept.
//!
//! `Fires` is a list of notifiers that are to be told, each with its own outcome, and must be spent;
//! `FiredList` is a list of those that were told. Contracts see both as lists of `Notice`s. They are
//! chains of the nodes that `Armed::new` made, so that none of their calls takes memory.
//!
//! Read `orc_io` for what a notifier is, and `query_book` for who keeps them.
#![tactic(auto)]

mod armed;
mod chain;
mod fires;
mod notes;
mod notice;
mod places;

pub use armed::{Armed, Fired};
pub use fires::{FiredList, Fires};
pub use notes::{Noted, Notes};
pub use notice::{Heard, Notice, Unheard};
pub use places::NotePlaces;
