//! What becomes of the names that a unit offers, over the present rows of the dylib.

ghost use Rattle.std.specs.Prelude.{◌≡◌, None, IfOk, OnOk, IfErr};
ghost use Rattle.session_model.specs.Answer.{clash};
ghost use Rattle.session_model.specs.Change.{is_strong, verdict_on};
ghost use Rattle.session_model.specs.Plain.{unsearched_at};
ghost use Rattle.jit_dylib.specs.Rows.{verdict_at, verdicts_at, first_clash, IsRefusedBy};

use crate::error::DefineError;
use crate::rows::RowMap;
use orc_ids::{InstId, NameId, SymFlags};
use session_model::{InstRow, Phase, Row, Verdict};
use std::alloc::Global;

/// Whether no lookup has asked for the instance.
fn not_searched(rows: &[InstRow], i: InstId) -> bool
    ensures { result ≡ unsearched_at rows.now i.0 }
{
    match rows.get(i.0 as usize) {
        Some(row) => matches!(row.phase, Phase::Unsearched),
        None => false,
    }
}

fn strong(flags: SymFlags) -> bool
    ensures { result ≡ is_strong flags }
{
    !(flags.weak || flags.common)
}

/// What becomes of a name that has a present row.
fn judge_over(rows: &[InstRow], flags: SymFlags, old: Row) -> Verdict
    ensures { result ≡ verdict_on rows.now flags old }
{
    if !strong(flags) {
        Verdict::Discarded
    } else if strong(old.flags) || !not_searched(rows, old.inst) {
        Verdict::Clashes(old.inst)
    } else {
        Verdict::Replaces(old.inst)
    }
}

/// What becomes of an offered name.
fn judge(present: &RowMap, rows: &[InstRow], offer: (NameId, SymFlags)) -> Verdict
    ensures { result ≡ verdict_at rows.now present.now.entries offer }
{
    match present.get(&offer.0.0) {
        Some(old) => judge_over(rows, offer.1, *old),
        None => Verdict::Kept,
    }
}

/// The verdict, where it isn't a clash.
fn accept(name: NameId, verdict: Verdict) -> Result<Verdict, DefineError>
    ensures same { IfOk result (λ v. v ≡ verdict) }
    ensures accepted { OnOk result (clash name verdict ≡ None) }
    ensures refused { IfErr result (IsRefusedBy (clash name verdict)) }
{
    match verdict {
        Verdict::Clashes(i) => Err(DefineError::Duplicate(name, i)),
        _ => Ok(verdict),
    }
}

/// What becomes of each offered name, where none clashes.
pub(crate) fn judge_all(
    alloc: Global,
    present: &RowMap,
    rows: &[InstRow],
    offers: &[(NameId, SymFlags)],
) -> Result<Vec<Verdict>, DefineError>
    ensures verdicts { IfOk result (λ found. found.items ≡ verdicts_at rows.now present.now.entries offers.now) }
    ensures accepted { OnOk result (first_clash rows.now present.now.entries offers.now ≡ None) }
    ensures refused { IfErr result (IsRefusedBy (first_clash rows.now present.now.entries offers.now)) }
{
    let mut found = Vec::with_capacity(alloc, offers.len())?;
    for offer in offers {
        found.push(accept(offer.0, judge(present, rows, *offer))?)?;
    }
    Ok(found)
}
