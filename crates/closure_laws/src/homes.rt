//! Where instances, units, generators and trackers belong.

ghost use Rattle.closure_laws.specs.Homes.{RowsHaveHomes, UnspentHaveTrackers};

/// Each instance has its dylib and its unit, whose tracker is of that dylib.
pub fn rows_have_homes()
    ensures { RowsHaveHomes }
{}

/// The tracker of a generator that isn't spent is there, and of its dylib.
pub fn unspent_have_trackers()
    ensures { UnspentHaveTrackers }
{}
