//! The events of a session as values, each to be made in one turn.

mod definitions;
mod dylibs;
mod lookups;
mod memory;
mod trackers;
mod units;
mod work;

pub use definitions::{Attach, Define, Generate};
pub use dylibs::{MakeDylib, SetOrder};
pub use lookups::{Ask, Collect};
pub use memory::CopyMemory;
pub use trackers::{MakeTracker, MoveTracker, Remove};
pub use units::{Emit, Fail, Link, Place, Resolve};
pub use work::{Handed, Take};
