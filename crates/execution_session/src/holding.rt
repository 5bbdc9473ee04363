//! What the holder of a unit calls: its own place, and its own emission.

ghost use Rattle.std.specs.Prelude.{◌≡◌, length, slice_get, Some, IfOk, IfSome, IfNone, unwrap_or};
ghost use Rattle.session_model.specs.Plain.{UnitRow};
ghost use Rattle.session_model.specs.declared.entry.Event.TheVariants as event;
ghost use Rattle.session_steps.specs.Fires.{FiresBy};
ghost use Rattle.session_steps.specs.Handed.{IsLowest};
ghost use Rattle.execution_session.specs.Holding.{IsFinished, IsRefused, own_groups, own_shape};
ghost use Rattle.session_steps.specs.Performs.{state_of, Performs};
ghost use Rattle.session_steps.specs.Taken.{IsUnitOf};

use crate::answering::stopped;
use crate::session::{Session, Told};
use orc_ids::{Bytes, Groups, InstId, SeatNo, Shape, Stop, UnitId};
use orc_io::Notify;
use session_model::{Matches, Reply, UnitKind};
use session_steps::TakenUnit;
use std::alloc::{AllocError, Global};

/// What an emission hands in.
#[derive(Drop)]
pub struct Finished {
    pub groups: Groups,
    pub bytes: Bytes,
}

/// A unit that makes what its emission hands in.
pub trait Finishes: UnitKind {
    /// The unit's groups and bytes for these live names, this base, these bindings and these
    /// instances; none exactly where an edge of it is out of range.
    fn finish(
        &self,
        alloc: Global,
        live: &[bool],
        base: u64,
        bound: &[Option<(InstId, u64)>],
        own: &[InstId],
    ) -> Result<Option<Finished>, AllocError>
        ensures made { IfOk result (λ made. IfSome made (IsFinished (Self.meaning self.now) live.now base bound.now own.now)) }
        ensures refused { IfOk result (λ made. IfNone made (IsRefused (Self.meaning self.now) live.now base bound.now)) };
}

/// The shape of no memory.
pub const NOTHING: Shape = Shape { need: 0, align: 1 };

/// The memory that the unit needs, which may be none.
fn shape_of<U: UnitKind>(taken: &TakenUnit<U>) -> Shape
    requires { length taken.now.live ≡ length (U.meaning taken.now.share).offers }
    ensures { result ≡ own_shape U.meaning taken.now }
{
    taken.share.shape(taken.live.as_slice()).unwrap_or(NOTHING)
}

/// The unit's groups and bytes.
fn finish_taken<U: Finishes>(
    alloc: Global,
    taken: &TakenUnit<U>,
    bound: &Matches,
) -> Result<Option<Finished>, AllocError>
    ensures made { IfOk result (λ made. IfSome made (IsFinished (U.meaning taken.now.share) taken.now.live (unwrap_or taken.now.base 0) bound.now taken.now.instances)) }
    ensures refused { IfOk result (λ made. IfNone made (IsRefused (U.meaning taken.now.share) taken.now.live (unwrap_or taken.now.base 0) bound.now)) }
{
    taken.share.finish(
        alloc,
        taken.live.as_slice(),
        taken.base.unwrap_or(0),
        bound.as_slice(),
        taken.instances.as_slice(),
    )
}

/// Places a unit that was taken, in its own shape.
pub fn place_taken<U: UnitKind, N: Notify, const JMAX: usize>(
    session: &mut Session<U, N, JMAX>,
    s: SeatNo,
    u: UnitId,
    taken: &TakenUnit<U>,
) -> Result<Reply, Stop>
    requires unit { IsUnitOf U.meaning (state_of U.meaning session.old.journal) u taken.now }
    ensures performs { Performs U.meaning JMAX session.old.journal session.new.journal s (event.Place u (own_shape U.meaning taken.now)) result }
    ensures lowest { IfOk result (λ r. IsLowest (state_of U.meaning session.old.journal) (own_shape U.meaning taken.now) r) }
    ensures armed { session.new.armed ≡ session.old.armed }
{
    session.place(s, u, shape_of(taken))
}

/// Emits a unit that was taken with these bindings, with its own groups and bytes. There is no answer
/// where it can't be finished so.
pub fn emit_taken<U: Finishes, N: Notify, const JMAX: usize>(
    alloc: Global,
    session: &mut Session<U, N, JMAX>,
    s: SeatNo,
    u: UnitId,
    taken: &TakenUnit<U>,
    bound: &Matches,
) -> Option<Told<N>>
    requires unit { IsUnitOf U.meaning (state_of U.meaning session.old.journal) u taken.now }
    requires bound { (x : UnitRow) → slice_get (state_of U.meaning session.old.journal).units u.0 ≡ Some x → x.bound ≡ Some bound.now }
    ensures performs { IfSome result (λ told. Performs U.meaning JMAX session.old.journal session.new.journal s (event.Emit u (own_groups (state_of U.meaning session.old.journal) u)) told.answer) }
    ensures fires { IfSome result (λ told. FiresBy U.meaning told.answer session.old session.new told.fires) }
    ensures unfinished { IfNone result (session.new ≡ session.old) }
    ensures refused { IfNone result (IsRefused (U.meaning taken.now.share) taken.now.live (unwrap_or taken.now.base 0) bound.now) }
{
    let Ok(finished) = finish_taken(alloc, taken, bound) else {
        return Some(stopped(Stop::NoMemory));
    };
    let made = finished?;
    Some(session.emit(s, u, made.groups, made.bytes))
}
