//! What the session of a script calls.
use orc_ids::{DylibId, Items, Level, NameId, OrderItem, TrackId, Wanted};
use orc_io::Notify;

/// A call of the set-up.
#[derive(Drop)]
pub enum SetUpCall<U> {
    /// Make a dylib of this name.
    Dylib(NameId),
    /// Give the dylib a link order: itself, then these.
    Order(DylibId, Items<OrderItem>),
    /// Make a tracker of the dylib.
    Tracker(DylibId),
    /// Define the unit's symbols.
    Define(DylibId, TrackId, U),
    /// Make a generator of the unit.
    Attach(DylibId, TrackId, U),
}

/// Names that are looked up in an order, up to a level.
#[derive(Drop)]
pub struct Lookup {
    pub order: Items<OrderItem>,
    pub wanted: Items<Wanted>,
    pub level: Level,
}

/// What a line of a client asks for.
#[derive(Drop)]
pub enum ClientCall<U, N: Notify> {
    /// Define the unit's symbols.
    Define(DylibId, TrackId, U),
    /// Look names up, and tell the note of this number how that ended.
    LookUp(Lookup, Option<(u32, N)>),
    /// Give what the first tracker has to the second.
    Move(TrackId, TrackId),
    /// Remove all that the tracker has.
    Remove(TrackId),
    /// Run from a name, for at most so many instructions, with these arguments.
    Run(NameId, u64, Items<u64>),
    /// Ask after a name, without a call of the session.
    Peek(NameId),
}

/// What a script asks for, with its units made: the set-up, and then each client's lines.
#[derive(Drop)]
pub struct Plan<U, N: Notify> {
    pub set_up: Vec<SetUpCall<U>>,
    pub clients: Vec<Vec<ClientCall<U, N>>>,
}
