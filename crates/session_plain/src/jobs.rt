ghost use Rattle.std.specs.Prelude.{◌≡◌, ◌<◌, drop, length, OnOk};
ghost use Rattle.session_model.specs.Change.{taken_start, taken_finish, finish_listed};
ghost use Rattle.session_plain.specs.Meant.{meant};

use crate::plain::PlainSession;
use crate::units::{Step, step_in};
use orc_ids::{SeatNo, UnitId};
use session_model::{Finishing, Job, UnitKind};
use std::alloc::AllocError;

/// The oldest job is handed out.
fn drop_job(jobs: &mut Vec<Job>)
    ensures { jobs.new.items ≡ drop 1 jobs.old.items }
{
    if !jobs.is_empty() {
        let _job = jobs.remove(0);
    }
}

/// The oldest job, a Start of this unit, is handed out to the seat.
pub fn take_start<U: UnitKind>(s: &mut PlainSession<U>, seat: SeatNo, u: UnitId)
    ensures { meant U.meaning s.new ≡ taken_start seat.0 u.0 (meant U.meaning s.old) }
{
    drop_job(&mut s.jobs);
    step_in(&mut s.units, u, Step::Start(seat));
}

/// The oldest job, a Finish of this unit, is handed out to the seat.
pub fn take_finish<U: UnitKind>(s: &mut PlainSession<U>, seat: SeatNo, u: UnitId, how: Finishing)
    ensures { meant U.meaning s.new ≡ taken_finish seat.0 u.0 how (meant U.meaning s.old) }
{
    drop_job(&mut s.jobs);
    step_in(&mut s.units, u, Step::Finish(seat, how));
}

/// The unit is Linked, and its job Finish is listed.
pub fn list_finish<U: UnitKind>(s: &mut PlainSession<U>, u: UnitId) -> Result<(), AllocError>
    ensures listed { OnOk result (meant U.meaning s.new ≡ finish_listed u.0 (meant U.meaning s.old)) }
    ensures rows { s.new.rows.items ≡ s.old.rows.items }
    ensures queries { s.new.queries.items ≡ s.old.queries.items }
{
    s.jobs.push(Job::Finish(u))?;
    step_in(&mut s.units, u, Step::Link);
    Ok(())
}
