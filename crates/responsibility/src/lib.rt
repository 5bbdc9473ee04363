//! The responsibility for one unit (ORC: `MaterializationResponsibility`). Whoever takes a unit's job
//! gets one and has to spend it, when the unit was linked, emitted or failed: a `Resp` can't be let go
//! otherwise, since it isn't `Drop`, and can't be had twice, since it isn't `Copy`.
//!
//! Contracts see a `Resp` as the number of its unit. Read `mat_unit` for the jobs.
#![tactic(auto)]

mod resp;

pub use resp::Resp;
