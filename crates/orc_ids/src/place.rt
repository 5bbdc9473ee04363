/// A place in a unit: the number of a block, and an offset in it in bytes.
#[derive(Clone, Copy, Debug, PartialEq, Eq)]
pub struct Place {
    pub block: u32,
    pub offset: u64,
}

/// The memory that a unit needs: a positive number of bytes, and an alignment that is a power of two.
#[derive(Clone, Copy, PartialEq, Eq)]
pub struct Shape {
    pub need: u64,
    pub align: u64,
}
