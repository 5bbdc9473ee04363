ghost use Rattle.std.specs.Prelude.{[], ◌∷◌, ◌≡◌};
ghost use Rattle.link_order.specs.Shown.{shown, is_named};

mod two_dylibs;

use link_order::{MatchError, match_all, match_names};
use orc_ids::{DylibId, GenId, InstId, NameId, OrderItem, Scope, SymFlags, UnitId, Wanted};
use session_model::{InstRow, Matched, Phase, Row, RowSource};
use std::alloc::Global;

/// Two dylibs that have this row alone.
#[derive(Drop)]
struct OneRow {
    row: InstRow,
}

fn named(row: &InstRow, d: DylibId, name: NameId) -> bool
    ensures { result ≡ is_named d.0 name.0 row.now }
{
    row.present && row.dylib.0 == d.0 && row.name.0 == name.0
}

impl RowSource for OneRow {
    ghost source = { λ s. shown (s.row ∷ []) };

    fn known(&self, d: DylibId) -> bool {
        d.0 < 2
    }

    fn row(&self, d: DylibId, name: NameId) -> Option<Row> {
        if named(&self.row, d, name) {
            Some(Row {
                inst: InstId(0),
                flags: self.row.flags,
            })
        } else {
            None
        }
    }

    fn offered(&self, _d: DylibId, _name: NameId, _scope: Scope) -> Option<GenId> {
        None
    }

    fn failed(&self, i: InstId) -> bool {
        i.0 == 0 && matches!(self.row.phase, Phase::Failed)
    }
}

/// The name of the one row.
const DEFINED: Wanted = Wanted {
    name: NameId(0),
    weak: false,
};

/// A name that nothing defines, which may be missing.
const WEAK: Wanted = Wanted {
    name: NameId(9),
    weak: true,
};

/// The second dylib shows its one name.
fn one_row() -> OneRow {
    OneRow {
        row: InstRow {
            dylib: DylibId(1),
            name: DEFINED.name,
            flags: SymFlags {
                weak: false,
                common: false,
                exported: true,
                callable: true,
            },
            unit: UnitId(0),
            offer: 0,
            present: true,
            phase: Phase::Unsearched,
        },
    }
}

fn of(dylib: u32, scope: Scope) -> OrderItem {
    OrderItem {
        dylib: DylibId(dylib),
        scope,
    }
}

/// Each of so many names has its match, or may be missing.
fn has_matches(found: &Result<Matched, MatchError>, count: usize) -> bool {
    match found {
        Ok(matched) => matched.len() == count,
        Err(_) => false,
    }
}

/// The name of the one row is missing.
fn is_missing(found: &Result<Matched, MatchError>) -> bool {
    match found {
        Err(MatchError::Missing(name)) => *name == DEFINED.name,
        _ => false,
    }
}

/// All the names match in the order; or where that doesn't show the one row, its name is missing.
fn matches_if(
    alloc: Global,
    rows: &OneRow,
    order: &[OrderItem],
    wanted: &[Wanted],
    shown: bool,
) -> bool {
    let all = match_all(alloc, rows, order, wanted);
    let names = match_names(alloc, rows, order, wanted);
    if shown {
        has_matches(&all, wanted.len()) && has_matches(&names, wanted.len())
    } else {
        is_missing(&all) && is_missing(&names)
    }
}

/// No name, one and two are looked up in the order.
fn matches_in(alloc: Global, order: &[OrderItem], shown: bool) -> bool {
    let rows = one_row();
    matches_if(alloc, &rows, order, &[], true)
        && matches_if(alloc, &rows, order, &[WEAK], true)
        && matches_if(alloc, &rows, order, &[DEFINED], shown)
        && matches_if(alloc, &rows, order, &[WEAK, DEFINED], shown)
}

#[test]
fn memory_is_enough_for_each_lookup(rt: HostRuntime) {
    let alloc = rt.alloc();
    assert!(rt; matches_in(alloc, &[], false));
    assert!(rt; matches_in(alloc, &[of(0, Scope::All)], false));
    assert!(rt; matches_in(alloc, &[of(1, Scope::All)], true));
    assert!(rt; matches_in(alloc, &[of(1, Scope::Exported)], true));
    assert!(rt; matches_in(alloc, &[of(0, Scope::Exported), of(1, Scope::All)], true));
}
