//! Bytes that several values have together, none of them copied: the file that an object was read
//! from, of which its names and the contents of its sections are ranges.
//!
//! Contracts see a `SharedBytes` as its list of bytes, and not what else has them. Read `orc_ids` for
//! bytes that are owned; `elf_read` and `link_model` have shared ones.
#![tactic(auto)]

mod shared;

pub use shared::SharedBytes;
