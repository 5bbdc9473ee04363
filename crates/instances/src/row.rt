//! What each change makes of one row.

ghost use Rattle.std.specs.Prelude.{◌≡◌, ◌<◌, ◌&&◌, not, length, Option, true, false, if◌then◌else◌};
ghost use Rattle.session_model.specs.Plain.{phase_address, is_owned, is_unsearched};
ghost use Rattle.session_model.specs.Change.{claimed_row};
ghost use Rattle.session_model.specs.declared.rows.Phase.TheVariants as phase;
ghost use Rattle.instances.specs.Table.{removed_row};
ghost use Rattle.instances.specs.Groups.{row_with};
ghost use Rattle.instances.specs.Rows.{addressed_row};

use orc_ids::UnitId;
use session_model::{DepList, InstRow, Phase, UnitKind};

/// The address of an instance in this phase, from Resolved on.
pub fn address_of(phase: &Phase) -> Option<u64>
    ensures { result ≡ phase_address phase.now }
{
    match phase {
        Phase::Resolved(address) => Some(*address),
        Phase::Emitted(address, _) => Some(*address),
        _ => None,
    }
}

/// Whether no lookup has asked for an instance in this phase.
pub fn is_unsearched(phase: &Phase) -> bool
    ensures { result ≡ is_unsearched phase.now }
{
    matches!(phase, Phase::Unsearched)
}

pub fn claim_row(row: &mut InstRow, u: UnitId)
    ensures { row.new ≡ claimed_row u.0 row.old }
{
    if row.present && row.unit.0 == u.0 && is_unsearched(&row.phase) {
        row.phase = Phase::Claimed;
    }
}

pub fn resolve_row<U: UnitKind>(row: &mut InstRow, u: UnitId, unit: &U, base: u64)
    requires { is_owned u.0 row.old ≡ true → row.old.offer < length (U.meaning unit.now).offers }
    ensures { row.new ≡ addressed_row u.0 (λ k. (U.meaning unit.now).address k base) row.old }
{
    if row.present && row.unit.0 == u.0 {
        row.phase = Phase::Resolved(unit.address(row.offer, base));
    }
}

pub fn emit_row(row: &mut InstRow, u: UnitId, deps: Option<DepList>)
    ensures { row.new ≡ row_with u.0 deps row.old }
{
    if row.present && row.unit.0 == u.0 {
        let address = address_of(&row.phase).unwrap_or(0);
        let deps = match deps {
            Some(deps) => deps,
            None => DepList::new(),
        };
        row.phase = Phase::Emitted(address, deps);
    }
}

pub fn remove_row(row: &mut InstRow, u: UnitId)
    ensures { row.new ≡ removed_row u.0 row.old }
{
    if row.unit.0 == u.0 {
        row.present = false;
    }
}

pub fn replace_row(row: &mut InstRow)
    ensures { row.new ≡ record row.old { present = false } }
{
    row.present = false;
}

pub fn fail_row(row: &mut InstRow)
    ensures { row.new ≡ record row.old { phase = phase.Failed } }
{
    row.phase = Phase::Failed;
}
