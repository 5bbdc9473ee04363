ghost use Rattle.std.specs.Prelude.{◌≡◌, ◌++◌, OnOk, All};
ghost use Rattle.orc_ids.specs.declared.lookup.Wanted.{Wanted};
ghost use Rattle.journal_text.specs.Parts.{IsGiven, item_text, items_text, wanted_text, wanted_list_text, inst_text, insts_text, group_text, groups_text, found_text, found_list_text, bound_text, bound_list_text};

use crate::parts::scope_word;
use orc_ids::{Group, InstId, OrderItem, Wanted};
use orc_names::Names;
use std::alloc::{AllocError, Global};
use text_parts::{put, put_at, put_numbered};

fn put_item(out: &mut Vec<u8>, item: OrderItem) -> Result<(), AllocError>
    ensures { OnOk result (out.new.items ≡ out.old.items ++ item_text item) }
{
    put_numbered(out, b"d", item.dylib.0)?;
    put(out, scope_word(item.scope))
}

/// A search order.
pub(crate) fn put_items(out: &mut Vec<u8>, items: &[OrderItem]) -> Result<(), AllocError>
    ensures { OnOk result (out.new.items ≡ out.old.items ++ items_text items.now) }
{
    let mut mark: &[u8] = b" ";
    for item in items {
        put(out, mark)?;
        put_item(out, *item)?;
        mark = b",";
    }
    Ok(())
}

fn put_wanted(out: &mut Vec<u8>, names: &Names, wanted: Wanted) -> Result<(), AllocError>
    requires { IsGiven names.now wanted.name }
    ensures { OnOk result (out.new.items ≡ out.old.items ++ wanted_text names.now wanted) }
{
    put(out, names.text(wanted.name))?;
    if wanted.weak {
        put(out, b"?")?;
    }
    Ok(())
}

/// The names of a lookup.
pub(crate) fn put_wanted_list(
    out: &mut Vec<u8>,
    names: &Names,
    wanted: &[Wanted],
) -> Result<(), AllocError>
    requires { All (λ (w : Wanted). IsGiven names.now w.name) wanted.now }
    ensures { OnOk result (out.new.items ≡ out.old.items ++ wanted_list_text names.now wanted.now) }
{
    for w in wanted {
        put(out, b" ")?;
        put_wanted(out, names, *w)?;
    }
    Ok(())
}

/// Instances.
fn put_insts(out: &mut Vec<u8>, insts: &[InstId]) -> Result<(), AllocError>
    ensures { OnOk result (out.new.items ≡ out.old.items ++ insts_text insts.now) }
{
    let mut mark: &[u8] = b"";
    for i in insts {
        put(out, mark)?;
        put_numbered(out, b"i", i.0)?;
        mark = b",";
    }
    Ok(())
}

fn put_group(out: &mut Vec<u8>, group: &Group) -> Result<(), AllocError>
    ensures { OnOk result (out.new.items ≡ out.old.items ++ group_text group.now) }
{
    put_insts(out, group.members.as_slice())?;
    put(out, b":")?;
    put_insts(out, group.deps.as_slice())
}

/// Dependence groups.
pub(crate) fn put_groups(out: &mut Vec<u8>, groups: &[Group]) -> Result<(), AllocError>
    ensures { OnOk result (out.new.items ≡ out.old.items ++ groups_text groups.now) }
{
    let mut mark: &[u8] = b" ";
    for group in groups {
        put(out, mark)?;
        put_group(out, group)?;
        mark = b";";
    }
    Ok(())
}

fn put_found(
    alloc: Global,
    out: &mut Vec<u8>,
    found: Option<(InstId, u64)>,
) -> Result<(), AllocError>
    ensures { OnOk result (out.new.items ≡ out.old.items ++ found_text found) }
{
    match found {
        Some((i, address)) => {
            put_numbered(out, b"i", i.0)?;
            put_at(alloc, out, b"@", address)
        }
        None => put(out, b"none"),
    }
}

/// What a lookup found, with addresses.
pub(crate) fn put_found_list(
    alloc: Global,
    out: &mut Vec<u8>,
    matches: &[Option<(InstId, u64)>],
) -> Result<(), AllocError>
    ensures { OnOk result (out.new.items ≡ out.old.items ++ found_list_text matches.now) }
{
    let mut mark: &[u8] = b" ";
    for found in matches {
        put(out, mark)?;
        put_found(alloc, out, *found)?;
        mark = b",";
    }
    Ok(())
}

fn put_bound(out: &mut Vec<u8>, bound: Option<(InstId, u64)>) -> Result<(), AllocError>
    ensures { OnOk result (out.new.items ≡ out.old.items ++ bound_text bound) }
{
    match bound {
        Some((i, _)) => put_numbered(out, b"i", i.0),
        None => put(out, b"none"),
    }
}

/// What a unit's externals are bound to, without addresses.
pub(crate) fn put_bound_list(
    out: &mut Vec<u8>,
    matches: &[Option<(InstId, u64)>],
) -> Result<(), AllocError>
    ensures { OnOk result (out.new.items ≡ out.old.items ++ bound_list_text matches.now) }
{
    let mut mark: &[u8] = b" ";
    for bound in matches {
        put(out, mark)?;
        put_bound(out, *bound)?;
        mark = b",";
    }
    Ok(())
}
