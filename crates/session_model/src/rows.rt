use crate::deps::DepList;
use crate::entry::{Matches, Order};
use orc_ids::{DylibId, GenId, InstId, Items, Level, NameId, SymFlags, UnitId};

/// How far an instance has come (ORC: `SymbolState`). Whether it is ready isn't stored: that
/// follows from the recorded dependencies.
#[derive(Drop)]
pub enum Phase {
    /// No lookup has asked for it.
    Unsearched,
    /// Its unit was claimed by a lookup.
    Claimed,
    /// It has an address.
    Resolved(u64),
    /// Its bytes are in memory at this address, and it depends on these.
    Emitted(u64, DepList),
    /// It will never be ready.
    Failed,
}

/// One instance: an accepted definition of a name (ORC: `SymbolTableEntry`).
#[derive(Drop)]
pub struct InstRow {
    pub dylib: DylibId,
    pub name: NameId,
    pub flags: SymFlags,
    pub unit: UnitId,
    /// Which of its unit's offered names it is, from 0.
    pub offer: u32,
    /// Not removed, and not replaced by a strong definition.
    pub present: bool,
    pub phase: Phase,
}

/// What matching sees of an instance.
#[derive(Clone, Copy, PartialEq, Eq)]
pub struct Row {
    pub inst: InstId,
    pub flags: SymFlags,
}

/// Work that a session has for its callers.
#[derive(Clone, Copy, PartialEq, Eq)]
pub enum Job {
    /// Place, resolve and link the unit.
    Start(UnitId),
    /// Emit the unit.
    Finish(UnitId),
}

/// How far a unit has come.
#[derive(Clone, Copy, PartialEq, Eq)]
pub enum UnitPhase {
    /// No lookup has asked for it.
    Unclaimed,
    /// Its job Start is listed.
    Listed,
    /// Its job Start was handed out.
    Started,
    /// It has a place in memory.
    Placed,
    /// Its instances have addresses.
    Linking,
    /// It waits for its link query.
    Waiting,
    /// Its job Finish is listed.
    Linked,
    /// Its job Finish was handed out.
    Finishing,
    /// Its bytes are in memory.
    Done,
    /// It was given up.
    Failed,
    /// It was removed.
    Defunct,
}

/// A dylib, and where its units' externals are looked up (ORC: `JITDylib` and its link order).
#[derive(Drop)]
pub struct Dylib {
    pub name: u32,
    pub order: Order,
}

/// A tracker (ORC: `ResourceTracker`).
#[derive(Clone, Copy)]
pub struct Track {
    pub dylib: u32,
    pub gone: bool,
}

/// For each wanted name the instance that it matched, or none.
pub type Matched = Items<Option<InstId>>;

/// A query (ORC: `AsynchronousSymbolQuery`).
#[derive(Drop)]
pub struct Query {
    /// The number of its entry.
    pub asked: u64,
    pub matched: Matched,
    pub level: Level,
    /// The unit that it links, if it does.
    pub unit: Option<u32>,
    /// The note of its notifier, if it has one.
    pub note: Option<u32>,
}

/// A range of code memory, in bytes.
#[derive(Clone, Copy)]
pub struct Range {
    pub base: u64,
    pub need: u64,
}

/// What a name matches in a search order: an instance, or a generator that offers a definition.
#[derive(Clone, Copy)]
pub enum Match {
    Instance(InstId),
    Offered(GenId),
}

/// What becomes of one offered name.
#[derive(Clone, Copy)]
pub enum Verdict {
    /// It gets an instance.
    Kept,
    /// It gets an instance in the place of this weak one.
    Replaces(InstId),
    /// There is another definition already, and this one is weak.
    Discarded,
    /// It is a duplicate of this instance.
    Clashes(InstId),
}

/// How a query ends: each matched instance with its address, or the first one that is lost.
#[derive(Drop)]
pub enum Ending {
    Found(Matches),
    Lost(InstId),
}
