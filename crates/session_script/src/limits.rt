//! How much a script may have.

/// Lines, the ones that are skipped among them.
pub const LINE_LIMIT: u32 = 4_096;

/// Bytes.
pub const SIZE_LIMIT: usize = 1_048_576;

pub const CLIENT_LIMIT: usize = 16;

/// Files of different names.
pub const FILE_LIMIT: usize = 1_024;

/// The most instructions that a run may be asked to do.
pub const FUEL_LIMIT: u64 = 1 << 40;

/// How many arguments a run may have.
pub const ARG_LIMIT: usize = 8;

/// The greatest address of an absolute symbol, and the greatest argument.
pub const NUMBER_LIMIT: u64 = u64::MAX;
