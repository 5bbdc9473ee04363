//! How the instances stand, for the settling of queries.

ghost use Rattle.std.specs.Prelude.{◌≡◌, slice_get};
ghost use Rattle.session_model.specs.Plain.{is_failed};
ghost use Rattle.session_model.specs.Plain.{failed_at, present_at, address_at};

use crate::address_of;
use crate::graph::InstanceGraph;
use orc_ids::InstId;
use session_model::{InstRow, Phase, Standing};

/// Whether an instance in this phase failed.
fn is_failed(phase: &Phase) -> bool
    ensures { result ≡ is_failed phase.now }
{
    matches!(phase, Phase::Failed)
}

/// Whether the instance failed.
fn failed_at(rows: &[InstRow], i: InstId) -> bool
    ensures { result ≡ failed_at rows.now i.0 }
{
    match rows.get(i.0 as usize) {
        Some(row) => is_failed(&row.phase),
        None => false,
    }
}

/// Whether the instance is present.
pub(crate) fn present_at(rows: &[InstRow], i: InstId) -> bool
    ensures { result ≡ present_at rows.now i.0 }
{
    match rows.get(i.0 as usize) {
        Some(row) => row.present,
        None => false,
    }
}

/// The instance's address, if it has one.
fn address_at(rows: &[InstRow], i: InstId) -> Option<u64>
    ensures { result ≡ address_at rows.now i.0 }
{
    match rows.get(i.0 as usize) {
        Some(row) => address_of(&row.phase),
        None => None,
    }
}

impl Standing for InstanceGraph {
    ghost use Rattle.session_model.specs.Query.{stand_at};

    ghost stand = { λ g. stand_at g.rows };

    fn failed(&self, i: InstId) -> bool {
        failed_at(self.rows(), i)
    }

    fn present(&self, i: InstId) -> bool {
        present_at(self.rows(), i)
    }

    fn address(&self, i: InstId) -> Option<u64> {
        address_at(self.rows(), i)
    }

    fn ready(&self, i: InstId) -> bool {
        self.is_ready(i)
    }
}
