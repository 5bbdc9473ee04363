//! What a seat must know to make a call, and that it still does after entries of other seats.
ghost use Rattle.history_laws.specs.Conditions.{PlaceStays, EmitStays, FailStays, SourceStays};

/// The shape of a unit stays right for its place.
pub fn place_stays()
    ensures { PlaceStays }
{}

/// The groups and bytes of a unit stay right for its emission.
pub fn emit_stays()
    ensures { EmitStays }
{}

/// The cause of a fail stays one.
pub fn fail_stays()
    ensures { FailStays }
{}

/// The source of an alias stays.
pub fn source_stays()
    ensures { SourceStays }
{}
