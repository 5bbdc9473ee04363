//! What a thread does on a shared session: jobs, and lookups (ORC: `ExecutionSession::lookup`, and the
//! dispatch of materialization tasks).
//!
//! `work_one` takes one job and carries it to its end. Each function here says of its pass what
//! `shared_session` calls a promise: that the calls which it made are those of one job, of a lookup, or of
//! jobs, whatever other seats do in between, that a unit which they placed is at the lowest base that was
//! free, and who was told at them (`specs/Does`). Read `materialization` and `shared_session` first.
#![tactic(auto)]

mod assisting;
mod copying;
mod job;
mod jobs;
mod laws;
mod looking;
mod objects;
mod unit;
mod work;

pub use assisting::assist;
pub use copying::copy_memory;
pub use job::Job;
pub use jobs::do_jobs;
pub use laws::{free_looks, free_reads, free_stays};
pub use looking::{Looked, lookup};
pub use unit::{FinishError, LinkedUnit};
pub use work::{Worked, work_one};
