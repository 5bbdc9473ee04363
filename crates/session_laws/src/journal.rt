//! The journal's places.

ghost use Rattle.session_laws.specs.Journal.{KeptWithin, FullStays, HolderCanFail, FullStopsOthers};

/// The entries and the held units never outgrow the journal.
pub fn kept_within()
    ensures { KeptWithin }
{}

/// A full journal stays full.
pub fn full_stays()
    ensures { FullStays }
{}

/// A fail by the holder always has its place.
pub fn holder_can_fail()
    ensures { HolderCanFail }
{}

/// In a full journal nothing else has one.
pub fn full_stops_others()
    ensures { FullStopsOthers }
{}
