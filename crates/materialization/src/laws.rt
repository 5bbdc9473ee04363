//! A job's calls are right ones, and its entries those of one job.
ghost use Rattle.materialization.specs.Driving.{DrivenJobIsOne};
ghost use Rattle.materialization.specs.Laws.{JobBegins, JobGoesOn, OthersLeaveAJob};
ghost use Rattle.materialization.specs.Laws.{MayGiveUp, StopCutsJob, StoppedJobFails, RefusedEdgeFails, FullIsCause};

/// A seat without a unit that takes a job has the unit at its first stage.
pub fn job_begins()
    ensures { JobBegins }
{}

/// A call that was answered leaves the unit at the next stage, or the job over.
pub fn job_goes_on()
    ensures { JobGoesOn }
{}

/// What other seats do leaves a job where it is.
pub fn others_leave_a_job()
    ensures { OthersLeaveAJob }
{}

/// At any stage of a job its unit may be given up.
pub fn may_give_up()
    ensures { MayGiveUp }
{}

/// What a stop begins is the end of a job that is cut.
pub fn stop_cuts_job()
    ensures { StopCutsJob }
{}

/// A job that is stopped ends with one fail.
pub fn stopped_job_fails()
    ensures { StoppedJobFails }
{}

/// A unit with an edge out of range is given up in the place of its emission.
pub fn refused_edge_fails()
    ensures { RefusedEdgeFails }
{}

/// A journal without a place for a call of a job is full.
pub fn full_is_cause()
    ensures { FullIsCause }
{}

/// The entries of a seat that goes by the stages are one job, and it ends without a unit.
pub fn driven_job_is_one()
    ensures { DrivenJobIsOne }
{}
