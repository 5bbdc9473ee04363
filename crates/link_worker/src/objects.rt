//! The units of objects are units that are linked.
ghost use Rattle.std.specs.Prelude.{◌≡◌};
ghost use Rattle.link_worker.specs.Units.{unfixed};

use crate::unit::{FinishError, LinkedUnit};
use execution_session::Finished;
use orc_ids::InstId;
use session_units::{ObjectUnit, finish};
use std::alloc::Global;
use unit_fixups::FixError;

/// Why a unit can't be finished, by why its bytes can't be.
fn unfixed(why: FixError) -> FinishError
    ensures { result ≡ unfixed why }
{
    match why {
        FixError::OutOfRange(place, kind, v) => FinishError::Refused(place, kind, v),
        FixError::NoMemory => FinishError::NoMemory,
    }
}

impl LinkedUnit for ObjectUnit {
    fn finish(
        &self,
        alloc: Global,
        live: &[bool],
        base: u64,
        bound: &[Option<(InstId, u64)>],
        own: &[InstId],
    ) -> Result<Finished, FinishError> {
        match finish(alloc, self, live, base, bound, own) {
            Ok((groups, bytes)) => Ok(Finished { groups, bytes }),
            Err(why) => Err(unfixed(why)),
        }
    }
}
