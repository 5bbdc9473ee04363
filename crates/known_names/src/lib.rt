//! The names that a journal speaks of are those that were handed in: a journal has a text wherever the
//! names of the units, dylibs and lookups of its calls have one, and the causes of those fails that were
//! turned away.
//!
//! The law is the contract of a function with an empty body; there is no code here. Read `journal_text`
//! first.
#![tactic(auto)]

mod laws;
mod scripts;
mod spoken;

pub use laws::names_are_known;
pub use scripts::script_says_its_names;
pub use spoken::{loaded_units_are_known, spoken_names_are_known};
