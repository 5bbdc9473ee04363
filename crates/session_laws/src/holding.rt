//! What other seats can do to a unit that a seat holds.

ghost use Rattle.session_laws.specs.Holding.{HeldStays, DefunctStays, GoneStaysHeld};

/// Other seats leave a held unit as it is, but for a removal.
pub fn held_stays()
    ensures { HeldStays }
{}

/// A unit that is gone stays gone.
pub fn defunct_stays()
    ensures { DefunctStays }
{}

/// A unit that is gone stays with its seat until that seat was told.
pub fn gone_stays_held()
    ensures { GoneStaysHeld }
{}
