//! What a failure and a removal do to the instances.

ghost use Rattle.session_laws.specs.Failures.{FailFailsHits, RemoveFailsHits, OnlyFailuresFail};

/// A failed unit fails exactly what its instances hit.
pub fn fail_fails_hits()
    ensures { FailFailsHits }
{}

/// A removed tracker fails exactly what its unready instances hit.
pub fn remove_fails_hits()
    ensures { RemoveFailsHits }
{}

/// Nothing but a fail or a removal fails an instance.
pub fn only_failures_fail()
    ensures { OnlyFailuresFail }
{}
