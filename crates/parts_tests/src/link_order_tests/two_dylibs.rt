//! Lookups in two dylibs, one of which hides a name and has one that failed.

ghost use Rattle.std.specs.Prelude.{◌≡◌};
ghost use Rattle.link_order.specs.Shown.{shown};

use super::named;
use link_order::{MatchError, match_all, match_names};
use orc_ids::{DylibId, GenId, InstId, NameId, OrderItem, Scope, SymFlags, UnitId, Wanted};
use session_model::{InstRow, Matched, Phase, Row, RowSource};
use std::alloc::Global;
use std::marker::Model;
use std::process::Abort;

/// The rows of two dylibs, gone through from the first.
#[derive(Drop)]
struct Listed {
    rows: Vec<InstRow>,
}

impl Model for Listed {
    ghost use Rattle.std.specs.Prelude.{List, ◌<◌, ◌^◌, length};
    ghost use Rattle.session_model.specs.declared.rows.InstRow.{InstRow};

    ghost Value = { List InstRow };

    ghost view = { λ s. s.rows.items };

    ghost invariant = { λ s. length s.rows.items < 2 ^ 32 };
}

impl RowSource for Listed {
    ghost source = { λ s. shown s };

    fn known(&self, d: DylibId) -> bool {
        d.0 < 2
    }

    fn row(&self, d: DylibId, name: NameId) -> Option<Row> {
        for (k, row) in self.rows.iter().enumerate() {
            if named(row, d, name) {
                return Some(Row {
                    inst: InstId(k as u32),
                    flags: row.flags,
                });
            }
        }
        None
    }

    fn offered(&self, _d: DylibId, _name: NameId, _scope: Scope) -> Option<GenId> {
        None
    }

    fn failed(&self, i: InstId) -> bool {
        match self.rows.get(i.0 as usize) {
            Some(row) => matches!(row.phase, Phase::Failed),
            None => false,
        }
    }
}

const F: NameId = NameId(0);

const G: NameId = NameId(1);

const H: NameId = NameId(2);

const LOST: NameId = NameId(3);

fn flags(exported: bool) -> SymFlags {
    SymFlags {
        weak: false,
        common: false,
        exported,
        callable: true,
    }
}

fn a_row(d: u32, name: NameId, exported: bool, present: bool, phase: Phase) -> InstRow {
    InstRow {
        dylib: DylibId(d),
        name,
        flags: flags(exported),
        unit: UnitId(0),
        offer: 0,
        present,
        phase,
    }
}

/// Dylib 0 has a removed `F` (0), a hidden `F` (1) and `LOST` (4), which failed; dylib 1 an exported
/// `F` (2) and `G` (3).
fn two_dylibs(rt: &impl Abort, alloc: Global) -> Listed {
    let mut rows = Vec::new(alloc);
    rows.push(a_row(0, F, true, false, Phase::Claimed))
        .expect(rt, "memory");
    rows.push(a_row(0, F, false, true, Phase::Claimed))
        .expect(rt, "memory");
    rows.push(a_row(1, F, true, true, Phase::Unsearched))
        .expect(rt, "memory");
    rows.push(a_row(1, G, true, true, Phase::Resolved(64)))
        .expect(rt, "memory");
    rows.push(a_row(0, LOST, true, true, Phase::Failed))
        .expect(rt, "memory");
    Listed { rows }
}

fn of(dylib: u32, scope: Scope) -> OrderItem {
    OrderItem {
        dylib: DylibId(dylib),
        scope,
    }
}

fn wanted(name: NameId, weak: bool) -> Wanted {
    Wanted { name, weak }
}

/// The names have these matches.
fn are_found(found: &Result<Matched, MatchError>, expected: &[Option<InstId>]) -> bool {
    match found {
        Ok(found) => found.as_slice() == expected,
        Err(_) => false,
    }
}

#[test]
fn a_name_matches_in_the_first_dylib_that_shows_it(rt: HostRuntime) {
    let rows = two_dylibs(&rt, rt.alloc());
    let everything = [of(0, Scope::All), of(1, Scope::Exported)];
    let found = match_all(
        rt.alloc(),
        &rows,
        &everything,
        &[wanted(G, false), wanted(F, false)],
    );
    assert!(rt; are_found(&found, &[Some(InstId(3)), Some(InstId(1))]));
    let exported = [of(0, Scope::Exported), of(1, Scope::Exported)];
    let found = match_names(
        rt.alloc(),
        &rows,
        &exported,
        &[wanted(F, false), wanted(H, true)],
    );
    assert!(rt; are_found(&found, &[Some(InstId(2)), None]));
}

#[test]
fn the_first_reason_is_told(rt: HostRuntime) {
    let rows = two_dylibs(&rt, rt.alloc());
    let asked = [wanted(H, false), wanted(LOST, false)];
    let found = match_all(
        rt.alloc(),
        &rows,
        &[of(0, Scope::All), of(2, Scope::All)],
        &asked,
    );
    assert!(rt; matches!(found, Err(MatchError::NoDylib(DylibId(2)))));
    let found = match_all(rt.alloc(), &rows, &[of(0, Scope::All)], &asked);
    assert!(rt; matches!(found, Err(MatchError::InError(InstId(4)))));
    let found = match_names(rt.alloc(), &rows, &[of(1, Scope::All)], &asked);
    assert!(rt; matches!(found, Err(MatchError::Missing(H))));
}
