//! Units that make what their emission hands in.
ghost use Rattle.std.specs.Prelude.{◌<◌, ◌^◌, IfOk, IfErr};
ghost use Rattle.session_model.specs.Meaning.{FitsUnit};
ghost use Rattle.execution_session.specs.Holding.{IsFinished};
ghost use Rattle.link_worker.specs.Units.{Refuses};

use execution_session::Finished;
use orc_ids::{InstId, Place};
use session_model::UnitKind;
use std::alloc::Global;

/// Why a unit can't be finished.
#[derive(Drop)]
pub enum FinishError {
    /// The place, kind and value of its first edge that is out of range, in file order.
    Refused(Place, u32, i64),
    NoMemory,
}

/// A unit that makes what its emission hands in, or tells its first edge out of range.
pub trait LinkedUnit: UnitKind {
    /// The unit's groups and bytes: with a flag for each name that it offers, at this base, with an
    /// item for each external and an instance for each live name.
    fn finish(
        &self,
        alloc: Global,
        live: &[bool],
        base: u64,
        bound: &[Option<(InstId, u64)>],
        own: &[InstId],
    ) -> Result<Finished, FinishError>
        requires fits { FitsUnit (Self.meaning self.now) live.now bound.now own.now }
        requires low { base < 2 ^ 62 }
        ensures made { IfOk result (λ made. IsFinished (Self.meaning self.now) live.now base bound.now own.now made) }
        ensures refused { IfErr result (λ e. Refuses e ((Self.meaning self.now).refusal live.now base bound.now)) };
}
