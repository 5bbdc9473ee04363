//! The names of one unit in their lines.

ghost use Rattle.std.specs.Prelude.{◌≡◌, ◌+◌, ◌<◌, ◌≤◌, ◌^◌, [], ◌∷◌, ℕ, length, slice_get, Some};
ghost use Rattle.orc_ids.specs.declared.lookup.Scope.TheVariants.{All};
ghost use Rattle.session_model.specs.Match.{sees};
ghost use Rattle.generators.specs.Kept.{offered_in};
ghost use Rattle.generators.specs.Lines.{joined_by, without_spent, queue_at, HasRoom, ChangesLines};
ghost use Rattle.generators.specs.Rows.{spent_at};

use crate::generator::Generator;
use crate::lines::Lines;
use orc_ids::{DylibId, NameId, Scope, SymFlags};
use session_model::UnitKind;

fn is_seen(scope: Scope, flags: SymFlags) -> bool
    ensures { result ≡ sees scope flags }
{
    match scope {
        Scope::All => true,
        Scope::Exported => flags.exported,
    }
}

/// One more joins the line of the name, where the scope sees it.
fn join_name(lines: &mut Lines, scope: Scope, d: DylibId, offer: (NameId, SymFlags), who: u32)
    requires room { HasRoom 1 lines.old }
    requires few { (queue_at lines.old d.0 offer.0.0).joined + 1 < 2 ^ 32 }
    ensures queues { ChangesLines d.0 (offered_in (offer ∷ []) scope) (joined_by who) lines.old lines.new }
    ensures room { (n : ℕ) → HasRoom (n + 1) lines.old → HasRoom n lines.new }
{
    if is_seen(scope, offer.1) {
        lines.join(d, offer.0, who);
    }
}

/// One more joins the line of each name of the unit that the scope sees; takes no memory, since there
/// is room.
pub(crate) fn join_names<U: UnitKind>(
    lines: &mut Lines,
    scope: Scope,
    d: DylibId,
    unit: &U,
    who: u32,
)
    requires room { HasRoom (length (U.meaning unit.now).offers) lines.old }
    requires few { (n : ℕ) → (queue_at lines.old d.0 n).joined + 1 < 2 ^ 32 }
    ensures { ChangesLines d.0 (offered_in (U.meaning unit.now).offers scope) (joined_by who) lines.old lines.new }
{
    // its names differ
    unit.known();
    for k in 0..unit.count() {
        join_name(lines, scope, d, unit.offer(k), who);
    }
}

/// The spent ones at the head of the line of each name of the unit leave it; takes no memory.
pub(crate) fn pass_names<U: UnitKind>(
    lines: &mut Lines,
    rows: &[Generator<U>],
    d: DylibId,
    unit: &U,
)
    requires { (n : ℕ) → (queue_at lines.old d.0 n).joined < 2 ^ 32 }
    ensures { let passed = without_spent (spent_at rows.now) in
        ChangesLines d.0 (offered_in (U.meaning unit.now).offers All) passed lines.old lines.new }
{
    // its names differ
    unit.known();
    for k in 0..unit.count() {
        let (name, _) = unit.offer(k);
        lines.pass(d, name, rows);
    }
}
