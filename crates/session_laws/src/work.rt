//! Work that is owed, jobs that are handed out once, and phases that never fall back.

ghost use Rattle.session_laws.specs.Taking.{TakeIsAnswered};
ghost use Rattle.session_laws.specs.Work.{WorkIsOwed, NoneWaitsForMet, IdleHasNoOpenQuery, PhasesRise, StartedOnce, FinishedOnce};

/// Where a query is open, work is owed.
pub fn work_is_owed()
    ensures { WorkIsOwed }
{}

/// No unit waits for a link query whose end is decided.
pub fn none_waits_for_met()
    ensures { NoneWaitsForMet }
{}

/// Where no job is listed and no unit is held, no query is open.
pub fn idle_has_no_open_query()
    ensures { IdleHasNoOpenQuery }
{}

/// A unit's phase never falls back.
pub fn phases_rise()
    ensures { PhasesRise }
{}

/// A unit is handed out for its start at most once.
pub fn started_once()
    ensures { StartedOnce }
{}

/// A unit is handed out for its finish at most once.
pub fn finished_once()
    ensures { FinishedOnce }
{}

/// Where a job is listed, a take has a right reply.
pub fn take_is_answered()
    ensures { TakeIsAnswered }
{}
