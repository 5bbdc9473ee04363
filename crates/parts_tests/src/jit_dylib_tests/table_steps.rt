ghost use Rattle.std.specs.Prelude.{◌<◌};

use super::expected::{Expected, is_expected, may_define};
use super::{F, WEAK};
use jit_dylib::Table;
use orc_ids::{DylibId, InstId, NameId, SymFlags, UnitId};
use session_model::{InstRow, Phase};
use std::alloc::{AllocError, Global};
use std::process::Abort;

/// What a table is asked, and what is answered.
#[derive(Drop)]
pub(super) enum Step<'a> {
    /// These names are defined, with instances from this number on.
    Define(&'a [(NameId, SymFlags)], u32, Expected<'a>),
    /// The rows of these instances go.
    Go(&'a [(NameId, InstId)]),
    /// The name's present row is that of this instance, with these flags.
    Row(NameId, u32, SymFlags),
    /// The name has no row.
    NoRow(NameId),
}

/// Whether the names are defined as the table of steps says.
fn defines(
    table: &mut Table,
    rows: &[InstRow],
    offers: &[(NameId, SymFlags)],
    first: u32,
    expected: &Expected,
) -> bool {
    if !may_define(offers, first) {
        return false;
    }
    is_expected(&table.define(offers, InstId(first), rows), expected)
}

/// The rows of these instances go.
fn goes(table: &mut Table, gone: &[(NameId, InstId)]) -> bool {
    table.drop_rows(gone);
    true
}

/// The present row of the name is that of the instance, with these flags.
pub(super) fn has_row(table: &Table, name: NameId, number: u32, flags: SymFlags) -> bool {
    matches!(table.row(name), Some(row) if row.inst.0 == number && row.flags == flags)
}

/// Whether the step is done, or answered, as it says.
fn is_done(table: &mut Table, rows: &[InstRow], step: &Step) -> bool {
    match step {
        Step::Define(offers, first, expected) => defines(table, rows, offers, *first, expected),
        Step::Go(gone) => goes(table, gone),
        Step::Row(name, number, flags) => has_row(table, *name, *number, *flags),
        Step::NoRow(name) => table.row(*name).is_none(),
    }
}

/// The first step that isn't done, or answered, as it says.
fn first_wrong(alloc: Global, rows: &[InstRow], steps: &[Step]) -> Option<usize> {
    let mut table = Table::new(alloc);
    for (k, step) in steps.iter().enumerate() {
        if !is_done(&mut table, rows, step) {
            return Some(k);
        }
    }
    None
}

/// An instance of a weak name, which a lookup has asked for or not.
fn instance(claimed: bool) -> InstRow {
    InstRow {
        dylib: DylibId(0),
        name: F,
        flags: WEAK,
        unit: UnitId(0),
        offer: 0,
        present: true,
        phase: if claimed {
            Phase::Claimed
        } else {
            Phase::Unsearched
        },
    }
}

/// Instances of weak names, each of which a lookup has asked for or not.
fn instances(alloc: Global, claimed: &[bool]) -> Result<Vec<InstRow>, AllocError> {
    let mut rows = Vec::new(alloc);
    for claimed in claimed {
        rows.push(instance(*claimed))?;
    }
    Ok(rows)
}

/// Plays the steps on a table without names, over a session of so many instances, each of which a
/// lookup has asked for or not. Each step is done, or answered, as it says.
pub(super) fn play(rt: &impl Abort, alloc: Global, claimed: &[bool], steps: &[Step]) {
    let rows = instances(alloc, claimed).expect(rt, "memory");
    assert_eq!(rt; first_wrong(alloc, &rows, steps), None);
}

/// Defines one name, as the instance of this number.
pub(super) fn defines_one(table: &mut Table, name: NameId, flags: SymFlags, number: u32) -> bool
    requires { number < 262144 }
{
    table.define(&[(name, flags)], InstId(number), &[]).is_ok()
}
