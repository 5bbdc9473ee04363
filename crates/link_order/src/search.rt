//! The match of one name.

ghost use Rattle.std.specs.Prelude.{◌≡◌};
ghost use Rattle.link_order.specs.Finds.{visible_match};
ghost use Rattle.session_model.specs.Match.{sees, match_in, match_of};

use orc_ids::{NameId, OrderItem, Scope, SymFlags, Wanted};
use session_model::{Match, Row, RowSource};

/// A name that was looked for, and its match.
#[derive(Clone, Copy, Drop)]
pub(crate) struct Find {
    pub wanted: Wanted,
    pub found: Option<Match>,
}

/// Whether a scope sees a name of these flags.
fn scope_sees(scope: Scope, flags: SymFlags) -> bool
    ensures { result ≡ sees scope flags }
{
    match scope {
        Scope::All => true,
        Scope::Exported => flags.exported,
    }
}

/// The visible row of a name, as a match.
fn visible(scope: Scope, row: Option<Row>) -> Option<Match>
    ensures { result ≡ visible_match scope row }
{
    let row = row?;
    if scope_sees(scope, row.flags) {
        Some(Match::Instance(row.inst))
    } else {
        None
    }
}

/// The match of a name in one dylib: its present visible row, else the first generator that offers one.
fn match_in_dylib<R: RowSource>(rows: &R, item: &OrderItem, name: NameId) -> Option<Match>
    ensures { result ≡ match_in (R.source rows.now) name.0 item.now }
{
    let found = visible(item.scope, rows.row(item.dylib, name));
    if found.is_some() {
        return found;
    }
    match rows.offered(item.dylib, name, item.scope) {
        Some(generator) => Some(Match::Offered(generator)),
        None => None,
    }
}

/// The match of a name in the first dylib of the order that has one.
pub(crate) fn find_match<R: RowSource>(rows: &R, order: &[OrderItem], name: NameId) -> Option<Match>
    ensures { result ≡ match_of (R.source rows.now) order.now name.0 }
{
    for item in order {
        let found = match_in_dylib(rows, item, name);
        if found.is_some() {
            return found;
        }
    }
    None
}
