ghost use Rattle.std.specs.Prelude.{◌≡◌, map, IfOk};
ghost use Rattle.session_model.specs.Change.{claimed_row};
ghost use Rattle.session_model.specs.Plain.{is_owned};

use crate::phases::{owned, phase_unsearched};
use orc_ids::UnitId;
use session_model::{InstRow, Phase};
use std::alloc::{AllocError, Global};

fn claim_row(row: &mut InstRow, u: UnitId)
    ensures { row.new ≡ claimed_row u.0 row.old }
{
    if owned(u.0, row) && phase_unsearched(&row.phase) {
        row.phase = Phase::Claimed;
    }
}

/// The unit's unsearched instances become Claimed.
pub fn claim_rows(rows: &mut [InstRow], u: UnitId)
    ensures { rows.new ≡ map (claimed_row u.0) rows.old }
{
    for row in rows.iter_mut() {
        claim_row(row, u);
    }
}

/// For each row whether it is one of the unit's.
pub fn unit_rows(alloc: Global, rows: &[InstRow], u: UnitId) -> Result<Vec<bool>, AllocError>
    ensures { IfOk result (λ marks. marks.items ≡ map (is_owned u.0) rows.now) }
{
    let mut marks = Vec::new(alloc);
    for row in rows {
        marks.push(owned(u.0, row))?;
    }
    Ok(marks)
}
