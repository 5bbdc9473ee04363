//! The trackers of a session (ORC: `ResourceTracker`): which units and generators each one owns, and
//! which dylib it is of. All that one owns can be made to belong to another one, in constant time,
//! and taken away with it, in the time of what is handed out.
//!
//! Contracts see `Trackers` as the list of trackers by number, each as what it owns: its dylib, its
//! units and its generators, in the order in which they came, or as gone, merged into another one or
//! taken; and the tracker that there is room in for one more unit.
//!
//! Read `mat_unit` for what becomes of the units.
#![tactic(auto)]

mod chains;
mod holders;
mod owned;
mod trackers;

pub use owned::Owned;
pub use trackers::{TrackError, Trackers};
