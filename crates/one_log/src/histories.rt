//! A run without workers has one history.

ghost use Rattle.one_log.specs.HistoryLaws.{OneHistory, OneHistoryWithPlaces, WholeRunsAreOne};

/// Without workers, of two histories of a run one is a beginning of the other.
pub fn one_history()
    ensures { OneHistory }
{}

/// Two that weren't stopped are the same, and ended alike.
pub fn whole_runs_are_one()
    ensures { WholeRunsAreOne }
{}

/// Where a journal has places enough nothing need be said of edges out of range.
pub fn one_history_with_places()
    ensures { OneHistoryWithPlaces }
{}
