//! The laws.
ghost use Rattle.session_promises.specs.Laws.{FailedWhereLost, FailureHitsThose, FoundAreFew, FoundIsReady, FoundStaysReady, FoundWhereSettled, IntactHasClosure, IntactRunsAsLinked, NothingElseFails, RowsAreFew, ObjectsHaveClosures};

/// A lookup that is found is answered with addresses at exactly the first entry that leaves all its matches at
/// its level.
pub fn found_where_settled()
    ensures { FoundWhereSettled }
{}

/// A lookup that failed was answered so at exactly the first entry that loses a match.
pub fn failed_where_lost()
    ensures { FailedWhereLost }
{}

/// Where a lookup at Ready is found, all that its matches reach is emitted.
pub fn found_is_ready()
    ensures { FoundIsReady }
{}

/// They stay so in every later history, each at the address that it was found at.
pub fn found_stays_ready()
    ensures { FoundStaysReady }
{}

/// A session has no more instances than it may have.
pub fn rows_are_few()
    ensures { RowsAreFew }
{}

/// What a lookup found are instances of it.
pub fn found_are_few()
    ensures { FoundAreFew }
{}

/// A failure puts in error exactly the unready instances that reach what it strikes.
pub fn failure_hits_those()
    ensures { FailureHitsThose }
{}

/// Nothing but a fail or a removal puts an instance in error.
pub fn nothing_else_fails()
    ensures { NothingElseFails }
{}

/// An intact instance has a closure.
pub fn intact_has_closure()
    ensures { IntactHasClosure }
{}

/// So it has where each unit that the session was handed is that of an object, or needs no memory.
pub fn objects_have_closures()
    ensures { ObjectsHaveClosures }
{}

/// A run from an intact symbol has the end and the output of the statically linked program of its closure.
pub fn intact_runs_as_linked()
    ensures { IntactRunsAsLinked }
{}
