use crate::files::FileTable;
use orc_ids::{DylibId, Items, Level, NameId, OrderItem, TrackId, Wanted};
use orc_names::Names;

/// A search order.
pub type Order = Items<OrderItem>;

/// What a script asks for: what is set up first, and then for each client what it calls.
#[derive(Drop)]
pub struct Script {
    pub setup: Items<SetupLine>,
    pub clients: Items<Items<ClientLine>>,
    /// The names of the files, in the order in which they are first mentioned.
    pub files: FileTable,
    /// The names of dylibs and symbols, in the order in which they are first mentioned.
    pub names: Names,
}

/// A line of the setup. Dylibs and trackers are numbered as they are declared and files as they are
/// first mentioned, from 0.
#[derive(Drop)]
pub enum SetupLine {
    Dylib(NameId),
    Order(DylibId, Order),
    Tracker(DylibId, TrackId),
    /// The object in a file is defined.
    Object(DylibId, TrackId, u32),
    /// Symbols are defined at these addresses.
    Absolute(DylibId, TrackId, Items<(NameId, u64)>),
    /// The object in a file is attached, to be defined once it is asked for.
    Generator(DylibId, TrackId, u32),
    Alias(AliasLine),
}

/// A symbol is defined to stand for the target in the source dylib.
#[derive(Clone, Copy, PartialEq, Eq)]
pub struct AliasLine {
    pub dylib: DylibId,
    pub tracker: TrackId,
    pub name: NameId,
    pub source: DylibId,
    pub target: NameId,
}

/// A line of a client.
#[derive(Drop)]
pub enum ClientLine {
    /// The object in a file is defined.
    Define(DylibId, TrackId, u32),
    Lookup(LookupLine),
    /// A lookup whose end is told to the note of this number.
    Watch(u32, LookupLine),
    Move(TrackId, TrackId),
    Remove(TrackId),
    /// A run from a symbol, for at most so many instructions, with these arguments.
    Run(NameId, u64, Items<u64>),
    /// A symbol is asked after, without a call.
    Peek(NameId),
}

/// Names that are looked up in an order, up to a level.
#[derive(Drop)]
pub struct LookupLine {
    pub level: Level,
    pub order: Order,
    pub wanted: Items<Wanted>,
}
