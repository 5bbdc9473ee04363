/// The return address that a run starts with: a run that comes back to it has exited.
pub const HOME: u64 = 0xFFFF_FFFF_FFFF_FFF0;

/// Where the stack of a run begins.
pub const STACK_START: u64 = 0x7FEF_0000;

/// Where the stack of a run ends: it has 1 MiB.
pub const STACK_END: u64 = 0x7FFF_0000;

/// How many bytes the stack of a run has.
pub(crate) const STACK_SIZE: u64 = STACK_END - STACK_START;

/// The most bytes that a run may write.
pub const OUTPUT_MAX: u64 = 1_048_576;

/// The number of the call `exit`.
pub(crate) const EXIT: u64 = 93;

/// The number of the call `write`.
pub(crate) const WRITE: u64 = 64;

/// The descriptor that takes what a run writes.
pub(crate) const STDOUT: u64 = 1;

/// The result of a call on a descriptor that isn't open: -9 (EBADF).
pub(crate) const BAD_DESCRIPTOR: u64 = u64::MAX - 8;

/// The result of a call on bytes that aren't all mapped: -14 (EFAULT).
pub(crate) const BAD_ADDRESS: u64 = u64::MAX - 13;

/// The result of a call that there isn't: -38 (ENOSYS).
pub(crate) const NO_CALL: u64 = u64::MAX - 37;
