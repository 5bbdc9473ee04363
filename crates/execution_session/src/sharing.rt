//! Units that are handed in, and stand in an entry too.

ghost use Rattle.std.specs.Prelude.{◌≡◌, false, IfOk, OnOk, IfErr};
ghost use Rattle.session_steps.specs.Given.{StopsEach};
ghost use Rattle.session_steps.specs.Performs.{lacks_places};
ghost use Rattle.session_steps.specs.Rest.{Rests};

use crate::places::check_places;
use orc_ids::Stop;
use orc_io::Notify;
use session_model::UnitKind;
use session_steps::Live;

/// Another handle of the unit, for an entry that the journal has a place for.
pub(crate) fn share_for_entry<U: UnitKind, N: Notify, const JMAX: usize>(
    live: &Live<U, N>,
    unit: &U,
) -> Result<U, Stop>
    requires rest { Rests U.meaning JMAX live.now }
    ensures share { IfOk result (λ share. U.meaning share ≡ U.meaning unit.now) }
    ensures place { OnOk result (lacks_places U.meaning JMAX live.now.journal.items 1 ≡ false) }
    ensures stopped { IfErr result (StopsEach U.meaning JMAX live.now.journal.items) }
{
    check_places::<U, N, JMAX>(live, 1)?;
    match unit.share(live.parts.alloc) {
        Ok(share) => Ok(share),
        Err(_) => Err(Stop::NoMemory),
    }
}
