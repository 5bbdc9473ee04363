//! What a command line may ask for at most.

/// The most FILE words.
pub const FILES_LIMIT: usize = 1024;

/// The longest name of an entry, in bytes.
pub const NAME_LIMIT: usize = 4096;

/// The most instructions that a run may be asked to do.
pub const FUEL_LIMIT: u64 = 1 << 40;

/// The most objects that a session may be made of.
pub const OBJECTS_LIMIT: u32 = 4096;

/// The most workers.
pub const WORKER_LIMIT: u32 = 16;
