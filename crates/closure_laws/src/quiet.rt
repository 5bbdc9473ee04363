//! Events that settle no query.

ghost use Rattle.closure_laws.specs.Quiet.{QuietSettlesNone};

/// Only an event that asks, resolves, links, emits, fails or removes can settle a query.
pub fn quiet_settles_none()
    ensures { QuietSettlesNone }
{}
