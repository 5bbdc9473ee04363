//! The matches of all names of a lookup, each found once, and why there may be none.

ghost use Rattle.std.specs.Prelude.{◌≡◌, map, IfOk, IfErr, None};
ghost use Rattle.session_model.specs.Lists.{first_some};
ghost use Rattle.session_model.specs.Answer.{refused_lookup};
ghost use Rattle.session_model.specs.Change.{matched, instance_of};
ghost use Rattle.link_order.specs.Finds.{finds, offered_in, failed_in, missing_in, first_unknown, order_refusal, IsRefusal, IsOrderRefusal};
ghost use Rattle.link_order.specs.declared.search.Find.{Find};

use crate::error::MatchError;
use crate::search::{Find, find_match};
use orc_ids::{DylibId, GenId, InstId, Items, NameId, OrderItem, Wanted};
use session_model::{Match, Matched, RowSource};
use std::alloc::{AllocError, Global};

/// Each name with its match.
fn find_all<R: RowSource>(
    alloc: Global,
    rows: &R,
    order: &[OrderItem],
    wanted: &[Wanted],
) -> Result<Vec<Find>, AllocError>
    ensures { IfOk result (λ all. all.items ≡ finds (R.source rows.now) order.now wanted.now) }
{
    let mut all = Vec::with_capacity(alloc, wanted.len())?;
    for w in wanted {
        let found = find_match(rows, order, w.name);
        all.push(Find { wanted: *w, found })?;
    }
    Ok(all)
}

fn offered(find: &Find) -> Option<GenId>
    ensures { result ≡ offered_in find.now }
{
    match find.found {
        Some(Match::Offered(generator)) => Some(generator),
        _ => None,
    }
}

/// The first match that is a generator.
fn first_offer(all: &[Find]) -> Option<GenId>
    ensures { result ≡ first_some offered_in all.now }
{
    for find in all {
        let generator = offered(find);
        if generator.is_some() {
            return generator;
        }
    }
    None
}

fn failed<R: RowSource>(rows: &R, find: &Find) -> Option<InstId>
    ensures { result ≡ failed_in (R.source rows.now) find.now }
{
    match find.found {
        Some(Match::Instance(i)) => { if rows.failed(i) { Some(i) } else { None } }
        _ => None,
    }
}

/// The first match that failed.
fn first_failed<R: RowSource>(rows: &R, all: &[Find]) -> Option<InstId>
    ensures { result ≡ first_some (failed_in (R.source rows.now)) all.now }
{
    for find in all {
        let instance = failed(rows, find);
        if instance.is_some() {
            return instance;
        }
    }
    None
}

fn missing(find: &Find) -> Option<NameId>
    ensures { result ≡ missing_in find.now }
{
    if !find.wanted.weak && find.found.is_none() {
        Some(find.wanted.name)
    } else {
        None
    }
}

/// The first required name without a match.
fn first_unmatched(all: &[Find]) -> Option<NameId>
    ensures { result ≡ first_some missing_in all.now }
{
    for find in all {
        let name = missing(find);
        if name.is_some() {
            return name;
        }
    }
    None
}

fn instance(find: &Find) -> Option<InstId>
    ensures { result ≡ instance_of find.now.found }
{
    match find.found {
        Some(Match::Instance(i)) => Some(i),
        _ => None,
    }
}

/// The instance of each match.
fn instances(alloc: Global, all: &[Find]) -> Result<Matched, AllocError>
    ensures { IfOk result (λ found. found ≡ map (λ (f : Find). instance_of f.found) all.now) }
{
    let mut found = Vec::with_capacity(alloc, all.len())?;
    for find in all {
        found.push(instance(find))?;
    }
    Ok(Items::from_vec(found))
}

/// The instance that each name matches in an order of dylibs that exist, or the first reason why the
/// names can't be asked for: a generator has to be used, a match failed, a required name has no match.
pub fn match_names<R: RowSource>(
    alloc: Global,
    rows: &R,
    order: &[OrderItem],
    wanted: &[Wanted],
) -> Result<Matched, MatchError>
    ensures matched { IfOk result (λ found. found ≡ matched (R.source rows.now) order.now wanted.now) }
    ensures allowed { IfOk result (λ found. refused_lookup (R.source rows.now) order.now wanted.now ≡ None) }
    ensures refused { IfErr result (IsRefusal (R.source rows.now) order.now wanted.now) }
{
    let Ok(all) = find_all(alloc, rows, order, wanted) else {
        return Err(MatchError::NoMemory);
    };
    if let Some(generator) = first_offer(&all) {
        return Err(MatchError::Offer(generator));
    }
    if let Some(failed) = first_failed(rows, &all) {
        return Err(MatchError::InError(failed));
    }
    if let Some(name) = first_unmatched(&all) {
        return Err(MatchError::Missing(name));
    }
    match instances(alloc, &all) {
        Ok(found) => Ok(found),
        Err(_) => Err(MatchError::NoMemory),
    }
}

/// The first dylib of an order that doesn't exist.
fn unknown_dylib<R: RowSource>(rows: &R, order: &[OrderItem]) -> Option<DylibId>
    ensures { result ≡ first_unknown (R.source rows.now) order.now }
{
    for item in order {
        if !rows.known(item.dylib) {
            return Some(item.dylib);
        }
    }
    None
}

/// The instance that each name matches, or the first reason why the names can't be asked for: a dylib
/// of the order doesn't exist, and then those of `match_names` (ORC: `ExecutionSession::lookup`).
pub fn match_all<R: RowSource>(
    alloc: Global,
    rows: &R,
    order: &[OrderItem],
    wanted: &[Wanted],
) -> Result<Matched, MatchError>
    ensures matched { IfOk result (λ found. found ≡ matched (R.source rows.now) order.now wanted.now) }
    ensures allowed { IfOk result (λ found. order_refusal (R.source rows.now) order.now wanted.now ≡ None) }
    ensures refused { IfErr result (IsOrderRefusal (R.source rows.now) order.now wanted.now) }
{
    match unknown_dylib(rows, order) {
        Some(d) => Err(MatchError::NoDylib(d)),
        None => match_names(alloc, rows, order, wanted),
    }
}
