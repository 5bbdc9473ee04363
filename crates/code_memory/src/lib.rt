//! The memory that linked code is placed in: one range of addresses, from which each unit is given
//! a part of its own, and the image of it that a run starts from (LLVM ORC: the memory manager of
//! `JITLinkMemoryManager`).
//!
//! Contracts see a `Space` as the list of its placements, in rising order of base, and nothing else.
//! A base is free for a shape where it is aligned and its range lies in code memory, beside all
//! placements; `place` gives the lowest free base, so a range that was freed is used again. They see
//! an `Image` as the list of the deposited ranges in rising order, each a base and its bytes, and
//! `byte_at` as the map from addresses to bytes that such a list is.
//!
//! Inside, the gaps below the placements stand in a queue of their own, so that placing looks at gaps
//! alone and a gap that comes or goes moves the fewer of those on its two sides, and the last image
//! with the lowest base at which something changed since, so that the next one costs what changed.
//! Its ranges share their bytes with the placements, so that no image copies a byte.
//! Read `exec_run` next, for what a run does with an image.
#![tactic(auto)]

mod deposit;
mod deposit_bytes;
mod gaps;
mod image;
mod last_image;
mod laws;
mod placement;
mod ranges;
mod sharing;
mod space;

pub use deposit_bytes::DepositBytes;
pub use image::{Image, Segment};
pub use laws::{deposits_are_mapped, lowest_base_is_in_first_gap, placements_lie_apart};
pub use placement::Placement;
pub use space::{Space, SpaceError};
