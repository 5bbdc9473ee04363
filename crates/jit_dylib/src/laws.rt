ghost use Rattle.jit_dylib.specs.Laws.{JudgesAsTheSession, DefinesAsTheSession, DefinesNothingElsewhere, DropsAsTheSession, DropsOneByOne, ShelfMakes, ShelfJudges, ShelfDefines, ShelfDrops};

/// A define over the table of a session's dylib judges as the session does: a law, which does
/// nothing.
pub fn judges_as_the_session()
    ensures { JudgesAsTheSession }
{}

/// After a define the table is that of the session that defined the unit: a law, which does nothing.
pub fn defines_as_the_session()
    ensures { DefinesAsTheSession }
{}

/// A define leaves the tables of other dylibs as they are: a law, which does nothing.
pub fn defines_nothing_elsewhere()
    ensures { DefinesNothingElsewhere }
{}

/// Without the rows of a tracker's units the table is that of the session that removed the tracker:
/// a law, which does nothing.
pub fn drops_as_the_session()
    ensures { DropsAsTheSession }
{}

/// Rows may be dropped one after the other: a law, which does nothing.
pub fn drops_one_by_one()
    ensures { DropsOneByOne }
{}

/// With one more dylib the dylibs are those of the session that made it: a law, which does nothing.
pub fn shelf_makes()
    ensures { ShelfMakes }
{}

/// A define over a session's dylibs judges as the session does: a law, which does nothing.
pub fn shelf_judges()
    ensures { ShelfJudges }
{}

/// After a define the dylibs are those of the session that defined the unit: a law, which does nothing.
pub fn shelf_defines()
    ensures { ShelfDefines }
{}

/// Without the rows of a tracker's units the dylibs are those of the session that removed the
/// tracker: a law, which does nothing.
pub fn shelf_drops()
    ensures { ShelfDrops }
{}
