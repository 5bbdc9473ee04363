//! The invariant of a session, and what it carries.

ghost use Rattle.session_laws.specs.Sound.{LegalIsSound};
ghost use Rattle.session_laws.specs.Readiness.{EmittedReachesNoFailed, ReadyStaysReady};

/// The session after a legal history is sound.
pub fn legal_is_sound()
    ensures { LegalIsSound }
{}

/// No emitted instance reaches a failed one.
pub fn emitted_reaches_no_failed()
    ensures { EmittedReachesNoFailed }
{}

/// A ready instance stays ready, and keeps its phase.
pub fn ready_stays_ready()
    ensures { ReadyStaysReady }
{}
