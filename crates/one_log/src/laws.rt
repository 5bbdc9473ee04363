//! A run without workers writes one log.

ghost use Rattle.one_log.specs.Laws.{OneLog};

/// Calls that ask alike have one answer, one output and one log.
pub fn one_log()
    ensures { OneLog }
{}
