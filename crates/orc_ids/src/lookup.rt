use crate::ids::{DylibId, InstId, NameId, QueryId};

/// The state that a lookup waits for (ORC: the required `SymbolState`).
#[derive(Clone, Copy, PartialEq, Eq)]
pub enum Level {
    /// The symbol has an address.
    Resolved,
    /// The symbol's code and all that it reaches is in memory.
    Ready,
}

/// Which names of a dylib a lookup sees (ORC: `JITDylibLookupFlags`).
#[derive(Clone, Copy, PartialEq, Eq)]
pub enum Scope {
    All,
    Exported,
}

/// One dylib of a search order, and what of it is seen.
#[derive(Clone, Copy, PartialEq, Eq)]
pub struct OrderItem {
    pub dylib: DylibId,
    pub scope: Scope,
}

/// A name that is looked up. A weak one may have no match (ORC: `WeaklyReferencedSymbol`).
#[derive(Clone, Copy, PartialEq, Eq)]
pub struct Wanted {
    pub name: NameId,
    pub weak: bool,
}

/// How a query ended, with the number of the entry at which it settled; Failed names the first
/// matched instance, in wanted order, that failed or was removed.
#[derive(Clone, Copy, PartialEq, Eq)]
pub enum End {
    Found(u64),
    Failed(u64, InstId),
}

/// What a notifier is told: the query, and its end.
#[derive(Clone, Copy, PartialEq, Eq)]
pub struct Outcome {
    pub query: QueryId,
    pub end: End,
}

/// Why an event made no entry: the journal has no place for it at this length, or memory ran out.
#[derive(Clone, Copy)]
pub enum Stop {
    JournalFull(u64),
    NoMemory,
}
