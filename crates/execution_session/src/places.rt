//! The journal's places.

ghost use Rattle.std.specs.Prelude.{◌≡◌, ◌≤◌, length, true, false, OnOk, IfErr};
ghost use Rattle.orc_ids.specs.declared.lookup.Stop.TheVariants as stop;
ghost use Rattle.session_model.specs.Plain.{Plain};
ghost use Rattle.session_steps.specs.Performs.{state_of, lacks_places};
ghost use Rattle.session_steps.specs.Rest.{Rests};

use orc_ids::Stop;
use orc_io::Notify;
use session_model::UnitKind;
use session_replies::kept;
use session_steps::Live;

/// The journal has places for so many more entries, beside those of the held units.
pub(crate) fn check_places<U: UnitKind, N: Notify, const JMAX: usize>(
    live: &Live<U, N>,
    places: usize,
) -> Result<(), Stop>
    ghost m: { Plain }
    requires same { m ≡ state_of U.meaning live.now.journal.items }
    requires rest { Rests U.meaning JMAX live.now }
    requires few { places ≤ 2 }
    ensures places { OnOk result (lacks_places U.meaning JMAX live.now.journal.items places ≡ false) }
    ensures full { IfErr result (λ why. (why ≡ stop.JournalFull (length live.now.journal.items)) × (lacks_places U.meaning JMAX live.now.journal.items places ≡ true)) }
{
    let entries = live.journal.as_slice().len();
    if JMAX < entries + kept(&live.parts) as usize + places {
        return Err(Stop::JournalFull(entries as u64));
    }
    Ok(())
}
