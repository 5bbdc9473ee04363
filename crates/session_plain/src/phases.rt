ghost use Rattle.std.specs.Prelude.{◌≡◌};
ghost use Rattle.session_model.specs.Plain.{is_unsearched, is_failed, is_emitted, phase_address, is_owned, is_owned};

use session_model::{InstRow, Phase};

/// Whether no lookup has asked for the instance.
pub fn phase_unsearched(phase: &Phase) -> bool
    ensures { result ≡ is_unsearched phase.now }
{
    matches!(phase, Phase::Unsearched)
}

/// Whether the instance failed.
pub fn phase_failed(phase: &Phase) -> bool
    ensures { result ≡ is_failed phase.now }
{
    matches!(phase, Phase::Failed)
}

/// Whether the instance is in memory.
pub fn phase_emitted(phase: &Phase) -> bool
    ensures { result ≡ is_emitted phase.now }
{
    matches!(phase, Phase::Emitted(_, _))
}

/// The address of an instance, from Resolved on.
pub fn address_of(phase: &Phase) -> Option<u64>
    ensures { result ≡ phase_address phase.now }
{
    match phase {
        Phase::Resolved(address) => Some(*address),
        Phase::Emitted(address, _) => Some(*address),
        _ => None,
    }
}

/// Whether the row is one that the unit still offers.
pub fn owned(u: u32, row: &InstRow) -> bool
    ensures { result ≡ is_owned u row.now }
{
    row.present && row.unit.0 == u
}
