use orc_ids::{
    DylibId, GenId, Groups, InstId, Items, Level, NameId, OrderItem, Place, QueryId, SeatNo, Shape,
    TrackId, UnitId, Wanted,
};

/// A search order (ORC: `JITDylibSearchOrder`).
pub type Order = Items<OrderItem>;

/// The names of one lookup, in the order asked.
pub type WantedList = Items<Wanted>;

/// For each wanted name the instance that it matched, with its address, or none.
pub type Matches = Items<Option<(InstId, u64)>>;

/// One event of a session, with the caller's seat and the reply.
#[derive(Drop)]
pub struct Entry<U> {
    pub seat: SeatNo,
    pub event: Event<U>,
    pub reply: Reply,
}

/// What a caller asks of a session. `U` is the kind of unit that is handed in.
#[derive(Drop)]
pub enum Event<U> {
    /// Make a dylib of this name.
    Dylib(NameId),
    /// Give the dylib a link order: itself, then these.
    SetOrder(DylibId, Order),
    /// Make a generator of the unit.
    Attach(DylibId, TrackId, U),
    /// Define the unit's symbols.
    Define(DylibId, TrackId, U),
    /// Define the generator's unit.
    Generate(GenId),
    /// Look names up, with the note of the notifier if there is one.
    Ask(Order, WantedList, Level, Option<u32>),
    /// Take a query's end.
    Collect(QueryId),
    /// Take the oldest job.
    Take,
    /// Place a started unit.
    Place(UnitId, Shape),
    /// Give a unit's symbols their addresses.
    Resolve(UnitId),
    /// Put a unit's bytes into memory, with its dependence groups.
    Emit(UnitId, Groups),
    /// Give up a unit.
    Fail(UnitId, Why),
    /// Make a tracker of the dylib.
    Tracker(DylibId),
    /// Let the second tracker have all that the first has.
    MoveTracker(TrackId, TrackId),
    /// Remove all that the tracker has.
    Remove(TrackId),
    /// Copy the memory for a run.
    Image,
    /// Look a unit's externals up.
    Link(UnitId),
}

/// What a session answers.
#[derive(Drop)]
pub enum Reply {
    /// A dylib of this name is there.
    NameTaken(DylibId),
    /// A limit of the session is reached.
    TooMany,
    /// The dylib is made.
    Made(DylibId),
    /// There is no such dylib.
    NoDylib(DylibId),
    /// The order is set.
    Set,
    /// The tracker was never made, is gone, or isn't of this dylib.
    TrackerGone(TrackId),
    /// The generator is made.
    Generator(GenId),
    /// The name is defined already, by this instance.
    Duplicate(NameId, InstId),
    /// The unit is defined; its instances are this many from the first.
    Defined(UnitId, InstId, u32),
    /// There is no such generator.
    NoGen(GenId),
    /// The generator was used or removed.
    Spent(GenId),
    /// A wanted name is offered by this generator, which has to be used first.
    Offer(GenId),
    /// This matched instance failed.
    InError(InstId),
    /// This required name has no match.
    Missing(NameId),
    /// The target of the alias matched this instance, which the alias itself stands for.
    AliasCycle(InstId),
    /// The query is lodged and all of it is at its level.
    Done(QueryId),
    /// The query is lodged and waits.
    Pending(QueryId),
    /// There is no such query.
    Unknown(QueryId),
    /// The query hasn't settled; makes no entry.
    Open,
    /// The query settled at this entry, with these addresses.
    Found(u64, Matches),
    /// The query settled at this entry, since this instance failed or was removed.
    Lost(u64, InstId),
    /// No job is listed, and so many units are held; makes no entry.
    Idle(u32),
    /// Materialize the unit.
    Start(UnitId),
    /// The unit's externals are settled.
    Finish(UnitId, Finishing),
    /// The unit was removed.
    Defunct(UnitId),
    /// The unit isn't at the phase of this call, or the seat doesn't hold it.
    WrongPhase(UnitId),
    /// No place is left for so many bytes.
    NoRoom(u64),
    /// The unit is placed at this base.
    Placed(u64),
    /// The unit's symbols have addresses.
    Resolved,
    /// This dependency failed, is gone or was never searched.
    BadDep(InstId),
    /// The unit's bytes are in memory.
    Emitted,
    /// The unit failed.
    Failed,
    /// The tracker is made.
    Tracker(TrackId),
    /// The trackers are of two dylibs.
    OtherDylib,
    /// The first tracker's things are the second's.
    Moved,
    /// The tracker's things are removed.
    Removed,
    /// The memory is copied.
    Image,
}

/// How a unit's link query ended.
#[derive(Drop)]
pub enum Finishing {
    /// Each external's instance and address, or none.
    Bound(Matches),
    /// This instance failed or was removed.
    Lost(InstId),
}

/// Why a unit is given up.
#[derive(Clone, Copy)]
pub enum Why {
    /// An edge of this place, kind and value is out of range.
    Refused(Place, u32, i64),
    /// This name has no match.
    Missing(NameId),
    /// This external failed.
    InError(InstId),
    /// The target of the alias matched this instance, which the alias itself stands for.
    AliasCycle(InstId),
    /// This dependency failed, is gone or was never searched.
    BadDep(InstId),
    /// No place is left for so many bytes.
    NoRoom(u64),
    /// Memory ran out.
    NoMemory,
    /// The journal is full.
    Full,
}
