use crate::entry::{Finishing, Order};
use crate::rows::{Matched, Verdict};
use orc_ids::{DylibId, GenId, Groups, Items, Level, NameId, SeatNo, TrackId, UnitId};

/// What becomes of each name that a unit offers, in the order of its offers.
pub type Verdicts = Items<Verdict>;

/// What a reply does to a session, with all that was decided for it. `U` is the kind of unit that is
/// handed in.
#[derive(Drop)]
pub enum Change<U> {
    /// The session stays as it was.
    Nothing,
    /// There is a dylib of this name.
    MakeDylib(NameId),
    /// There is a tracker of the dylib.
    MakeTracker(DylibId),
    /// The dylib's link order is itself, and then these.
    SetOrder(DylibId, Order),
    /// There is a generator of the unit.
    Attach(DylibId, TrackId, U),
    /// There is the unit, with the names that its verdicts keep.
    Define(DylibId, TrackId, U, Verdicts),
    /// There is the generator's unit, and the generator is spent.
    Generate(GenId, Verdicts),
    /// The generator is spent.
    Spend(GenId),
    /// A query for these instances is lodged, with the note of its notifier if it has one.
    Ask(Matched, Level, Option<u32>),
    /// The seat holds the unit, whose job Start it took.
    Start(SeatNo, UnitId),
    /// The seat holds the unit, whose job Finish it took.
    Finish(SeatNo, UnitId, Finishing),
    /// The unit has this base.
    Place(UnitId, u64),
    /// The unit's instances have addresses.
    Resolve(UnitId),
    /// The unit waits for the query of its externals, which matched these instances.
    Link(UnitId, Matched),
    /// The unit's bytes are in memory, and its instances depend on their groups' dependencies.
    Emit(UnitId, Groups),
    /// The unit failed, and what reaches it.
    Fail(UnitId),
    /// The second tracker has all that the first had.
    Move(TrackId, TrackId),
    /// The tracker is gone, with all that it had.
    Remove(TrackId),
    /// The seat no longer holds the unit.
    LetGo(SeatNo, UnitId),
}
