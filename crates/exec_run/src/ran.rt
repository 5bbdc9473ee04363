use orc_ids::Bytes;
use rv_hart::Cause;

/// How a run ended: by its exit code, in a trap at an address, or for want of fuel or of room for
/// what it wrote.
#[derive(Clone, Copy, Debug, PartialEq, Eq)]
pub enum RunEnd {
    Exited(u64),
    Trap(u64, Cause),
    OutOfFuel,
    OutputFull,
}

/// The end of a run, and what it wrote to descriptor 1.
#[derive(Drop)]
pub struct Ran {
    pub end: RunEnd,
    pub output: Bytes,
}
