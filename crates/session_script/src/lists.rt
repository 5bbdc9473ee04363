//! The lists of operands: search orders, wanted names, definitions and arguments.
ghost use Rattle.std.specs.Prelude.{◌≡◌, [], map, unwrap_or, OnOk, IfOk};
ghost use Rattle.session_script.specs.Texts.{mentioned, all_mentioned};
ghost use Rattle.session_script.specs.Words.{unmarked};
ghost use Rattle.session_script.specs.Forms.{are_declared, is_declared, item_in, order_of, wanted_in, definition_in, symbol_part, argument_in};
ghost use Rattle.session_script.specs.Setup.{are_new};

use crate::forms::{read_address, read_argument, scope_of};
use crate::names::intern;
use crate::script::Order;
use crate::table::TextTable;
use crate::words::{cut, unmarked};
use orc_ids::{DylibId, Items, NameId, OrderItem, Wanted};
use orc_names::Names;
use std::alloc::{AllocError, Global};

fn is_declared(dylibs: &TextTable, item: &[u8]) -> bool
    ensures { result ≡ is_declared dylibs.now item.now }
{
    dylibs.has(cut(item, b':').0)
}

/// Whether the dylib of each item is declared.
pub fn are_declared(dylibs: &TextTable, items: &[&[u8]]) -> bool
    ensures { result ≡ are_declared dylibs.now (map (λ w. w.now) items.now) }
{
    for item in items {
        if !is_declared(dylibs, item) {
            return false;
        }
    }
    true
}

fn item_of(dylibs: &TextTable, item: &[u8]) -> OrderItem
    ensures { result ≡ item_in dylibs.now item.now }
{
    let (dylib, scope) = cut(item, b':');
    OrderItem {
        dylib: DylibId(dylibs.number_of(dylib)),
        scope: scope_of(scope),
    }
}

/// The search order of these items.
pub fn order_of(alloc: Global, dylibs: &TextTable, items: &[&[u8]]) -> Result<Order, AllocError>
    ensures { IfOk result (λ order. order ≡ order_of dylibs.now (map (λ w. w.now) items.now)) }
{
    let mut order = Vec::new(alloc);
    for item in items {
        order.push(item_of(dylibs, item))?;
    }
    Ok(Items::from_vec(order))
}

fn wanted(names: &mut Names, word: &[u8]) -> Result<Wanted, AllocError>
    ensures known { OnOk result (names.new ≡ mentioned (unmarked word.now) names.old) }
    ensures wanted { IfOk result (λ wanted. wanted ≡ wanted_in names.new word.now) }
{
    let (name, weak) = unmarked(word);
    Ok(Wanted {
        name: intern(names, name)?,
        weak,
    })
}

/// The wanted names, with numbers in their order.
pub fn all_wanted(
    alloc: Global,
    names: &mut Names,
    words: &[&[u8]],
) -> Result<Items<Wanted>, AllocError>
    ensures known { OnOk result (names.new ≡ all_mentioned (map unmarked (map (λ w. w.now) words.now)) names.old) }
    ensures wanted { IfOk result (λ wanted. wanted ≡ map (wanted_in names.new) (map (λ w. w.now) words.now)) }
{
    let mut all = Vec::new(alloc);
    for word in words {
        let wanted = wanted(names, word)?;
        all.push(wanted)?;
    }
    Ok(Items::from_vec(all))
}

/// Whether no definition's symbol is that of an earlier one, or among those seen.
pub fn are_new(seen: &mut TextTable, definitions: &[&[u8]]) -> Result<bool, AllocError>
    ensures { IfOk result (λ new. new ≡ are_new seen.old (map (λ w. w.now) definitions.now)) }
{
    for definition in definitions {
        let (symbol, _) = cut(definition, b'=');
        if seen.has(symbol) {
            return Ok(false);
        }
        seen.mention(symbol)?;
    }
    Ok(true)
}

fn defined(names: &mut Names, definition: &[u8]) -> Result<(NameId, u64), AllocError>
    ensures known { OnOk result (names.new ≡ mentioned (symbol_part definition.now) names.old) }
    ensures defined { IfOk result (λ defined. defined ≡ definition_in names.new definition.now) }
{
    let name = intern(names, cut(definition, b'=').0)?;
    Ok((name, read_address(definition).unwrap_or(0)))
}

/// The definitions, whose names have numbers in their order.
pub fn all_defined(
    alloc: Global,
    names: &mut Names,
    definitions: &[&[u8]],
) -> Result<Items<(NameId, u64)>, AllocError>
    ensures known { OnOk result (names.new ≡ all_mentioned (map symbol_part (map (λ w. w.now) definitions.now)) names.old) }
    ensures defined { IfOk result (λ all. all ≡ map (definition_in names.new) (map (λ w. w.now) definitions.now)) }
{
    let mut all = Vec::new(alloc);
    for definition in definitions {
        let defined = defined(names, definition)?;
        all.push(defined)?;
    }
    Ok(Items::from_vec(all))
}

pub fn arguments(alloc: Global, words: &[&[u8]]) -> Result<Items<u64>, AllocError>
    ensures { IfOk result (λ all. all ≡ map (λ word. unwrap_or (argument_in word) 0) (map (λ w. w.now) words.now)) }
{
    let mut all = Vec::new(alloc);
    for word in words {
        all.push(read_argument(word).unwrap_or(0))?;
    }
    Ok(Items::from_vec(all))
}
