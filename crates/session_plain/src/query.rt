ghost use Rattle.std.specs.Prelude.{◌≡◌, ℕ, ◌<◌, ◌^◌, length, IfOk, slice_get, false, None};
ghost use Rattle.std.specs.Option.{option_map_or};
ghost use Rattle.session_model.specs.Plain.{failed_at, present_at, emitted_at, unsearched_at, address_at};
ghost use Rattle.session_model.specs.Query.{is_lost, first_lost};

use crate::phases::{address_of, phase_emitted, phase_failed, phase_unsearched};
use orc_ids::InstId;
use session_model::InstRow;

/// Whether the instance is Failed.
pub fn row_failed(rows: &[InstRow], i: InstId) -> bool
    ensures { result ≡ failed_at rows.now i.0 }
{
    match rows.get(i.0 as usize) {
        Some(row) => phase_failed(&row.phase),
        None => false,
    }
}

/// Whether the instance is present.
pub fn row_present(rows: &[InstRow], i: InstId) -> bool
    ensures { result ≡ present_at rows.now i.0 }
{
    match rows.get(i.0 as usize) {
        Some(row) => row.present,
        None => false,
    }
}

/// Whether the instance is Emitted.
pub fn row_emitted(rows: &[InstRow], i: InstId) -> bool
    ensures { result ≡ emitted_at rows.now i.0 }
{
    match rows.get(i.0 as usize) {
        Some(row) => phase_emitted(&row.phase),
        None => false,
    }
}

/// Whether the instance is Unsearched.
pub fn row_unsearched(rows: &[InstRow], i: InstId) -> bool
    ensures { result ≡ unsearched_at rows.now i.0 }
{
    match rows.get(i.0 as usize) {
        Some(row) => phase_unsearched(&row.phase),
        None => false,
    }
}

/// The instance's address, if it has one.
pub fn row_address(rows: &[InstRow], i: InstId) -> Option<u64>
    ensures { result ≡ address_at rows.now i.0 }
{
    match rows.get(i.0 as usize) {
        Some(row) => address_of(&row.phase),
        None => None,
    }
}

/// Whether the instance is Failed or not present.
pub fn row_lost(rows: &[InstRow], i: InstId) -> bool
    ensures { result ≡ is_lost rows.now i.0 }
{
    row_failed(rows, i) || !row_present(rows, i)
}

/// The first matched instance that is lost.
pub fn lost_match(rows: &[InstRow], matched: &[Option<InstId>]) -> Option<InstId>
    ensures { result ≡ first_lost rows.now matched.now }
{
    for found in matched {
        if let Some(i) = found {
            if row_lost(rows, *i) {
                return Some(*i);
            }
        }
    }
    None
}
