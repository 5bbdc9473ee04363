ghost use Rattle.std.specs.Prelude.{◌≡◌, ◌<◌, ◌^◌, map, length, slice_get, false};
ghost use Rattle.std.specs.Option.{option_map_or};
ghost use Rattle.session_model.specs.Match.{sees, row_of, offered_by, offers_name, match_in, match_of};
ghost use Rattle.session_plain.specs.Meant.{gen_row, meant, IsSmall};
ghost use Rattle.session_plain.specs.Find.{is_named, is_offer, is_offering};

use crate::plain::{PlainGenerator, PlainSession};
use orc_ids::{DylibId, GenId, InstId, NameId, OrderItem, Scope, SymFlags};
use session_model::{InstRow, Match, Row, UnitKind};

/// Whether a scope sees a name of these flags.
pub fn scope_sees(scope: Scope, flags: SymFlags) -> bool
    ensures { result ≡ sees scope flags }
{
    match scope {
        Scope::All => true,
        Scope::Exported => flags.exported,
    }
}

fn named(row: &InstRow, d: DylibId, name: NameId) -> bool
    ensures { result ≡ is_named d.0 name.0 row.now }
{
    row.present && row.dylib.0 == d.0 && row.name.0 == name.0
}

/// The present row of a name in a dylib.
pub fn find_row(rows: &[InstRow], d: DylibId, name: NameId) -> Option<Row>
    requires { length rows.now < 2 ^ 32 }
    ensures { result ≡ row_of rows.now d.0 name.0 }
{
    for (k, row) in rows.iter().enumerate() {
        if named(row, d, name) {
            return Some(Row {
                inst: InstId(k as u32),
                flags: row.flags,
            });
        }
    }
    None
}

/// Whether what a unit offers at `k` is a definition of the name that the scope sees.
fn offers_at<U: UnitKind>(unit: &U, k: u32, name: NameId, scope: Scope) -> bool
    requires { k < length (U.meaning unit.now).offers }
    ensures { result ≡ option_map_or (is_offer name.0 scope) (slice_get (U.meaning unit.now).offers k) false }
{
    let (offered, flags) = unit.offer(k);
    offered.0 == name.0 && scope_sees(scope, flags)
}

/// Whether a unit offers a definition of the name that the scope sees.
#[tactic(auto, using(crate::proofs::ListLemmas::any_rest))]
pub fn unit_offers<U: UnitKind>(unit: &U, name: NameId, scope: Scope) -> bool
    ensures { result ≡ offers_name (U.meaning unit.now) name.0 scope }
{
    for k in 0..unit.count() {
        if offers_at(unit, k, name, scope) {
            return true;
        }
    }
    false
}

fn offering<U: UnitKind>(g: &PlainGenerator<U>, d: DylibId, name: NameId, scope: Scope) -> bool
    ensures { result ≡ is_offering d.0 name.0 scope (gen_row U.meaning g.now) }
{
    !g.spent && g.dylib == d.0 && unit_offers(&g.unit, name, scope)
}

/// The first unspent generator of a dylib that offers a visible definition of the name.
pub fn find_offer<U: UnitKind>(
    generators: &[PlainGenerator<U>],
    d: DylibId,
    name: NameId,
    scope: Scope,
) -> Option<GenId>
    requires { length generators.now < 2 ^ 32 }
    ensures { result ≡ offered_by (map (gen_row U.meaning) generators.now) d.0 name.0 scope }
{
    for (k, g) in generators.iter().enumerate() {
        if offering(g, d, name, scope) {
            return Some(GenId(k as u32));
        }
    }
    None
}

/// The match of a name in one dylib: its present row there if the scope sees it, else the first
/// generator that offers a visible definition.
pub fn find_in<U: UnitKind>(s: &PlainSession<U>, name: NameId, item: &OrderItem) -> Option<Match>
    requires { IsSmall s.now }
    ensures { result ≡ match_in (meant U.meaning s.now) name.0 item.now }
{
    if let Some(row) = find_row(&s.rows, item.dylib, name) {
        if scope_sees(item.scope, row.flags) {
            return Some(Match::Instance(row.inst));
        }
    }
    match find_offer(&s.generators, item.dylib, name, item.scope) {
        Some(g) => Some(Match::Offered(g)),
        None => None,
    }
}

/// The match of a name in the first dylib of an order that has one.
pub fn find_match<U: UnitKind>(
    s: &PlainSession<U>,
    order: &[OrderItem],
    name: NameId,
) -> Option<Match>
    requires { IsSmall s.now }
    ensures { result ≡ match_of (meant U.meaning s.now) order.now name.0 }
{
    for item in order {
        let found = find_in(s, name, item);
        if found.is_some() {
            return found;
        }
    }
    None
}
