//! Chains of aliases: an alias that waits stands for the instance that its target matched, which may be of
//! another alias that waits.

ghost use Rattle.std.specs.Prelude.{◌≡◌, option_map};
ghost use Rattle.session_model.specs.Chain.{is_of_unit};
ghost use Rattle.session_model.specs.Meaning.{IsLawful};
ghost use Rattle.session_replies.specs.Chains.{target_of, awaited, unit_at, TellsNext, TellsComing, TellsCycle};

use mat_unit::{Unit, Units};
use orc_ids::{InstId, QueryId, UnitId};
use orc_io::Notify;
use session_model::{InstRow, UnitKind, UnitPhase};
use session_parts::Parts;

/// The instance that the one external of an alias matched.
fn target(matched: &[Option<InstId>]) -> Option<InstId>
    ensures { result ≡ target_of matched.now }
{
    *matched.first()?
}

/// Whether the instance is one of the unit.
fn is_of_unit(rows: &[InstRow], u: UnitId, i: InstId) -> bool
    ensures { result ≡ is_of_unit u.0 rows.now i.0 }
{
    match rows.get(i.0 as usize) {
        Some(row) => row.unit.0 == u.0,
        None => false,
    }
}

/// The unit of an instance.
fn unit_of<'a, U>(rows: &[InstRow], units: &'a Units<U>, i: InstId) -> Option<&'a Unit<U>>
    ensures { option_map (λ x. x.now) result ≡ unit_at rows.now units.now.units i.0 }
{
    units.get(rows.get(i.0 as usize)?.unit)
}

/// The query that an alias waits for.
fn awaited<U: UnitKind>(unit: &Unit<U>) -> Option<QueryId>
    ensures query { result ≡ awaited U.meaning unit.now }
    ensures lawful { IsLawful (U.meaning unit.now.unit) }
{
    // for its law
    unit.unit.known();
    if unit.unit.source().is_some() && matches!(unit.phase, UnitPhase::Waiting) {
        unit.query.map(QueryId)
    } else {
        None
    }
}

/// The next instance of a chain.
fn next_instance<U: UnitKind, N: Notify>(parts: &Parts<U, N>, i: InstId) -> Option<InstId>
    ensures { TellsNext U.meaning parts.now i result }
{
    let unit = unit_of(parts.graph.rows(), &parts.units, i)?;
    let query = parts.book.query(awaited(unit)?)?;
    target(query.matched.as_slice())
}

/// Whether the chain from an instance comes to one of the unit.
fn comes_to_unit<U: UnitKind, N: Notify>(parts: &Parts<U, N>, u: UnitId, from: InstId) -> bool
    ensures { TellsComing U.meaning parts.now u from result }
{
    let rows = parts.graph.rows();
    let mut at = from;
    for _ in 0..rows.len() {
        if is_of_unit(rows, u, at) {
            return true;
        }
        match next_instance(parts, at) {
            Some(next) => at = next,
            None => return false,
        }
    }
    is_of_unit(rows, u, at)
}

/// The instance that the target of an alias matched, where the alias is what it stands for.
pub(crate) fn alias_cycle<U: UnitKind, N: Notify>(
    parts: &Parts<U, N>,
    u: UnitId,
    found: &[Option<InstId>],
) -> Option<InstId>
    ensures { TellsCycle U.meaning parts.now u found.now result }
{
    let i = target(found)?;
    if comes_to_unit(parts, u, i) {
        Some(i)
    } else {
        None
    }
}
