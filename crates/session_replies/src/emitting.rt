//! Dependencies that can't be depended on.

ghost use Rattle.std.specs.Prelude.{◌≡◌};
ghost use Rattle.session_model.specs.Lists.{first_some};
ghost use Rattle.session_model.specs.Plain.{Plain};
ghost use Rattle.session_model.specs.Answer.{bad_dep};
ghost use Rattle.session_parts.specs.Parts.{AreParts};
ghost use Rattle.session_replies.specs.Reasons.{is_bad_row, is_bad, bad_dep_of, bad_in};

use orc_ids::{Group, InstId};
use orc_io::Notify;
use session_model::{InstRow, Phase, Reply, UnitKind};
use session_parts::Parts;

/// Whether the instance can't be depended on: it failed, is gone or was never searched.
fn is_bad_row(row: &InstRow) -> bool
    ensures { result ≡ is_bad_row row.now }
{
    match row.phase {
        Phase::Failed => true,
        Phase::Unsearched => true,
        _ => !row.present,
    }
}

/// The same of the instance of this number; one that isn't there can't be depended on.
fn is_bad(rows: &[InstRow], i: InstId) -> bool
    ensures { result ≡ is_bad rows.now i }
{
    match rows.get(i.0 as usize) {
        Some(row) => is_bad_row(row),
        None => true,
    }
}

/// The answer BadDep for the first of these that can't be depended on.
fn bad_in(rows: &[InstRow], deps: &[InstId]) -> Option<Reply>
    ensures { result ≡ first_some (bad_dep_of rows.now) deps.now }
{
    for i in deps {
        if is_bad(rows, *i) {
            return Some(Reply::BadDep(*i));
        }
    }
    None
}

/// The answer BadDep for the first one of these groups' dependencies.
fn first_bad(rows: &[InstRow], groups: &[Group]) -> Option<Reply>
    ensures { result ≡ first_some (bad_in rows.now) groups.now }
{
    for group in groups {
        let bad = bad_in(rows, group.deps.as_slice());
        if bad.is_some() {
            return bad;
        }
    }
    None
}

/// The answer BadDep for the first dependency, in group order, that can't be depended on.
pub fn bad_dependency<U: UnitKind, N: Notify>(
    parts: &Parts<U, N>,
    groups: &[Group],
) -> Option<Reply>
    ghost m: { Plain }
    requires parts { AreParts U.meaning parts.now m }
    ensures { result ≡ bad_dep m.rows groups.now }
{
    first_bad(parts.graph.rows(), groups)
}
