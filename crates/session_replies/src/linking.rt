//! The externals of a unit.

ghost use Rattle.std.specs.Prelude.{◌≡◌, true, Some, slice_get, IfOk};
ghost use Rattle.session_model.specs.Answer.{can_link};
ghost use Rattle.session_model.specs.Plain.{Plain, UnitRow};
ghost use Rattle.closure_laws.specs.Bound.{AreBound};
ghost use Rattle.session_parts.specs.Parts.{AreParts, HaveDylibs};
ghost use Rattle.session_replies.specs.Lookups.{IsLinked, TellsMatches, TellsUnless, TellsUncycled, TellsAlias};

use crate::chains::alias_cycle;
use crate::looked::Looked;
use crate::shown::Shown;
use link_order::match_names;
use orc_ids::{DylibId, OrderItem, Scope, UnitId, Wanted};
use orc_io::Notify;
use session_model::{Matched, Reply, UnitKind};
use session_parts::Parts;
use std::alloc::{AllocError, Global};

/// What names match in an order of dylibs, or why they can't be asked for.
fn search<U: UnitKind, N: Notify>(
    parts: &Parts<U, N>,
    order: &[OrderItem],
    wanted: &[Wanted],
) -> Result<Looked, AllocError>
    requires { (m : Plain) × AreParts U.meaning parts.now m }
    ensures { TellsMatches U.meaning parts.now order.now wanted.now result }
{
    let shown = Shown::of(parts);
    Looked::of(match_names(parts.alloc, &shown, order, wanted))
}

/// What an alias matched, unless it stands for itself.
fn unless_cycle<U: UnitKind, N: Notify>(parts: &Parts<U, N>, u: UnitId, found: Matched) -> Looked
    ensures { TellsUnless U.meaning parts.now u found result }
{
    match alias_cycle(parts, u, found.as_slice()) {
        Some(i) => Looked::Refused(Reply::AliasCycle(i)),
        None => Looked::Matched(found),
    }
}

/// What the lookup of an alias comes to, unless it stands for itself.
fn without_cycle<U: UnitKind, N: Notify>(parts: &Parts<U, N>, u: UnitId, looked: Looked) -> Looked
    ensures { TellsUncycled U.meaning parts.now u looked result }
{
    match looked {
        Looked::Matched(found) => unless_cycle(parts, u, found),
        Looked::Refused(reply) => Looked::Refused(reply),
    }
}

/// What an alias matches in its source.
fn search_alias<U: UnitKind, N: Notify>(
    parts: &Parts<U, N>,
    u: UnitId,
    source: DylibId,
    wanted: &[Wanted],
) -> Result<Looked, AllocError>
    requires { (m : Plain) × AreParts U.meaning parts.now m }
    ensures { TellsAlias U.meaning parts.now u source wanted.now result }
{
    let order = [OrderItem {
        dylib: source,
        scope: Scope::All,
    }];
    let looked = search(parts, &order, wanted)?;
    Ok(without_cycle(parts, u, looked))
}

/// What the externals of a unit match in its link order, or why it can't be linked. An alias looks its
/// target up in its source alone.
pub fn match_link<U: UnitKind, N: Notify>(
    parts: &Parts<U, N>,
    u: UnitId,
) -> Result<Looked, AllocError>
    ghost m: { Plain }
    requires parts { AreParts U.meaning parts.now m }
    requires queries { parts.now.book.queries ≡ m.queries }
    requires bound { AreBound m }
    requires homes { HaveDylibs m }
    requires right { (x : UnitRow) × (slice_get m.units u.0 ≡ Some x) × (can_link x ≡ true) }
    ensures { (x : UnitRow) → slice_get m.units u.0 ≡ Some x → IfOk result (IsLinked m u x) }
{
    let Some(unit) = parts.units.get(u) else {
        unreachable!()
    };
    // for its law
    unit.unit.known();
    let wanted = unit.unit.externals(parts.alloc, unit.live.as_slice())?;
    match unit.unit.source() {
        Some(source) => search_alias(parts, u, source, &wanted),
        None => search(parts, parts.dylibs.order(unit.dylib), &wanted),
    }
}
