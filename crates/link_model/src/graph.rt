use orc_ids::{Items, NameId, Shape, SymFlags};
use shared_bytes::SharedBytes;

/// A block: the contents of one section, or one common symbol. Empty bytes stand for zeros.
#[derive(Drop)]
pub struct Block {
    pub bytes: SharedBytes,
    /// In bytes; the bytes are this many, or none.
    pub size: u64,
    /// A power of two.
    pub align: u64,
}

/// Where a symbol is: at an offset in a block, at an address, or in another unit. The flag of an
/// external says that it is weakly referenced.
#[derive(Clone, Copy, PartialEq, Eq)]
pub enum GPlace {
    In(u32, u64),
    Abs(u64),
    External(bool),
}

/// A symbol. A local one has no name.
#[derive(Drop)]
pub struct GSym {
    pub name: Option<NameId>,
    pub place: GPlace,
    pub flags: SymFlags,
    pub global: bool,
}

/// An edge: a relocation of some bytes of a block, by a symbol and an addend.
#[derive(Clone, Copy)]
pub struct Edge {
    pub block: u32,
    /// In bytes, in the block.
    pub offset: u64,
    /// The relocation's number in the psABI.
    pub kind: u32,
    /// The number of its symbol.
    pub target: u32,
    pub addend: i64,
}

/// A link graph (JITLink: `LinkGraph`): blocks in section order, symbols and edges in file order.
#[derive(Drop)]
pub struct LinkGraph {
    pub blocks: Items<Block>,
    pub symbols: Items<GSym>,
    pub edges: Items<Edge>,
}

/// Where the parts of a unit lie, in bytes from its base.
#[derive(Drop)]
pub struct Layout {
    /// The offset of each block.
    pub blocks: Items<u64>,
    /// The symbols that have a GOT cell, with its offset, in symbol order.
    pub cells: Items<(u32, u64)>,
    /// The symbols that have a stub, with its offset, in symbol order.
    pub stubs: Items<(u32, u64)>,
    pub shape: Shape,
    /// The symbols that other units define, in symbol order.
    pub externals: Items<u32>,
    /// For each offered name, whether the unit's definition of it was kept.
    pub live: Items<bool>,
}
