//! The present rows in a hash table, and how they change.

ghost use Rattle.std.specs.Prelude.{◌≡◌, ◌+◌, ◌≤◌, ◌<◌, ◌^◌, ◌∷◌, [], ◌==◌, length, unwrap_or, slice_get, false, if◌then◌else◌};
ghost use Rattle.std.specs.HashMap.{spare};
ghost use Rattle.std.specs.Option.{option_map_or};
ghost use Rattle.jit_dylib.specs.Rows.{row_at, fresh_rows, AreAdded, AreLeft, NamesDiffer};

use orc_ids::{InstId, NameId, SymFlags};
use session_model::Row;
use std::collections::HashMap;

/// The present rows by the numbers of their names.
pub(crate) type RowMap = HashMap<u32, Row>;

/// Puts a row at a name; takes no memory, since there is room.
fn put_row(present: &mut RowMap, name: NameId, row: Row)
    requires { 0 < spare present.old }
    ensures rows { AreAdded ((name.0, row) ∷ []) present.old.entries present.new.entries }
    ensures spare { spare present.old ≤ spare present.new + 1 }
{
    match present.insert(name.0, row) {
        Ok(_) => {}
        Err(_) => {}
    }
}

/// Puts the row of an offered name that stays, and tells the next number.
fn put_live(present: &mut RowMap, offer: (NameId, SymFlags), live: bool, next: u32) -> u32
    requires room { 0 < spare present.old }
    requires numbers { next + 1 < 2 ^ 32 }
    ensures rows { AreAdded (fresh_rows next (offer ∷ []) (live ∷ [])) present.old.entries present.new.entries }
    ensures next { result ≡ (if live then next + 1 else next) }
    ensures spare { spare present.old ≤ spare present.new + 1 }
{
    if !live {
        return next;
    }
    put_row(
        present,
        offer.0,
        Row {
            inst: InstId(next),
            flags: offer.1,
        },
    );
    next + 1
}

/// Whether the name at this place stays.
fn is_live(live: &[bool], at: usize) -> bool
    ensures { result ≡ unwrap_or (slice_get live.now at) false }
{
    match live.get(at) {
        Some(flag) => *flag,
        None => false,
    }
}

/// Puts the rows of the offered names that stay, numbered on from `first`; takes no memory, since
/// there is room.
pub(crate) fn put_rows(
    present: &mut RowMap,
    offers: &[(NameId, SymFlags)],
    live: &[bool],
    first: InstId,
)
    requires room { length offers.now ≤ spare present.old }
    requires numbers { first.0 + length offers.now < 2 ^ 32 }
    requires differ { NamesDiffer offers.now }
    requires flags { length live.now ≡ length offers.now }
    ensures { AreAdded (fresh_rows first.0 offers.now live.now) present.old.entries present.new.entries }
{
    let mut next = first.0;
    for (at, offer) in offers.iter().enumerate() {
        next = put_live(present, *offer, is_live(live, at), next);
    }
}

/// Whether the present row of the name is that of the instance.
fn stands_for(present: &RowMap, name: NameId, i: InstId) -> bool
    ensures { result ≡ option_map_or (λ r. r.inst.0 == i.0) (row_at present.now.entries name.0) false }
{
    match present.get(&name.0) {
        Some(row) => row.inst.0 == i.0,
        None => false,
    }
}

/// Takes the row of the name out, if it is that of the instance; takes no memory.
fn drop_row(present: &mut RowMap, name: NameId, i: InstId)
    ensures { AreLeft ((name, i) ∷ []) present.old.entries present.new.entries }
{
    if stands_for(present, name, i) {
        let _row = present.remove(&name.0);
    }
}

/// Takes the rows of the instances out, each by its name; takes no memory.
pub(crate) fn drop_rows(present: &mut RowMap, gone: &[(NameId, InstId)])
    ensures { AreLeft gone.now present.old.entries present.new.entries }
{
    for (name, i) in gone {
        drop_row(present, *name, *i);
    }
}
