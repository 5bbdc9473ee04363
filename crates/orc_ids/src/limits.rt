//! What a session has room for, in bytes of memory and in things of each kind.

/// Where code memory begins.
pub const CODE_START: u64 = 0x1000_0000;

/// Where code memory ends: it has 64 MiB.
pub const CODE_END: u64 = 0x1400_0000;

pub const DYLIB_LIMIT: usize = 64;

pub const TRACKER_LIMIT: usize = 65_536;

pub const UNIT_LIMIT: usize = 65_536;

pub const GENERATOR_LIMIT: usize = 65_536;

/// How many definitions a session accepts in all.
pub const INSTANCE_LIMIT: usize = 262_144;

/// How many items a search order may have.
pub const ORDER_LIMIT: usize = 64;

/// How many names one lookup may ask for.
pub const WANTED_LIMIT: usize = 65_536;

/// How many entries a journal may have places for.
pub const ENTRY_LIMIT: usize = 1_048_576;
