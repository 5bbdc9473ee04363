/// The number of a dylib (ORC: `JITDylib`).
#[derive(Clone, Copy, PartialEq, Eq)]
pub struct DylibId(pub u32);

/// The number of a tracker (ORC: `ResourceTracker`).
#[derive(Clone, Copy, PartialEq, Eq)]
pub struct TrackId(pub u32);

/// The number of a unit (ORC: `MaterializationUnit`).
#[derive(Clone, Copy, PartialEq, Eq)]
pub struct UnitId(pub u32);

/// The number of an instance: one accepted definition of a name. It is never used again.
#[derive(Clone, Copy, PartialEq, Eq)]
pub struct InstId(pub u32);

/// The number of a query (ORC: `AsynchronousSymbolQuery`).
#[derive(Clone, Copy, PartialEq, Eq)]
pub struct QueryId(pub u32);

/// The number of a generator (ORC: `DefinitionGenerator`).
#[derive(Clone, Copy, PartialEq, Eq)]
pub struct GenId(pub u32);

/// The number of a seat: one caller of a session. Seat 0 is the setup's.
#[derive(Clone, Copy, PartialEq, Eq)]
pub struct SeatNo(pub u32);

/// The number of an interned name (ORC: `SymbolStringPtr`).
#[derive(Clone, Copy, PartialEq, Eq, Hash)]
pub struct NameId(pub u32);

/// What the journal calls a unit: the number of its file, of its line of absolute symbols, or of its
/// line of aliases.
#[derive(Clone, Copy, PartialEq, Eq)]
pub enum UnitName {
    Object(u32),
    Absolute(u32),
    Alias(u32),
}
