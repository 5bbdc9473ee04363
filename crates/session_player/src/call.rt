use orc_ids::{
    Bytes, DylibId, GenId, Groups, Level, NameId, QueryId, SeatNo, Shape, TrackId, UnitId,
};
use session_model::{Order, WantedList, Why};

/// One call of a session: each of its events, with its arguments. A lookup has no notifier.
#[derive(Drop)]
pub enum Call<U> {
    /// Make a dylib of this name.
    Dylib(NameId),
    /// Give the dylib a link order: itself, then these.
    SetOrder(DylibId, Order),
    /// Make a generator of the unit.
    Attach(DylibId, TrackId, U),
    /// Define the unit's symbols.
    Define(DylibId, TrackId, U),
    /// Define the generator's unit.
    Generate(GenId),
    /// Look names up.
    Ask(Order, WantedList, Level),
    /// Take a query's end.
    Collect(QueryId),
    /// Take the oldest job.
    Take,
    /// Place a started unit, in its own shape.
    Place(UnitId, Shape),
    /// Give a unit's symbols their addresses.
    Resolve(UnitId),
    /// Put a unit's bytes into memory, with its own groups.
    Emit(UnitId, Groups, Bytes),
    /// Give up a unit, for a cause that is there.
    Fail(UnitId, Why),
    /// Make a tracker of the dylib.
    Tracker(DylibId),
    /// Let the second tracker have all that the first has.
    MoveTracker(TrackId, TrackId),
    /// Remove all that the tracker has.
    Remove(TrackId),
    /// Copy the memory for a run.
    Image,
    /// Look a unit's externals up.
    Link(UnitId),
}

/// A call, and the seat that makes it.
#[derive(Drop)]
pub struct SeatCall<U> {
    pub seat: SeatNo,
    pub call: Call<U>,
}
