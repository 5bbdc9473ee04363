/// The most bytes that a file may have: 16 MiB.
pub const FILE_LIMIT: usize = 16_777_216;

/// The most bytes that a script may have: 1 MiB.
pub const SCRIPT_LIMIT: usize = 1_048_576;
