//! What the definitions say of lists of calls.

ghost use Rattle.session_player.specs.Plays.{CallsGrow, IsOneHistory};

use session_laws::{open_has_no_end, reply_is_determined};
use session_model::UnitKind;

/// A list of calls leads from a journal to one other alone, but for the handles to its units.
pub fn one_history<U: UnitKind>()
    ensures { IsOneHistory U.meaning }
{
    reply_is_determined();
    open_has_no_end();
}

/// A call leaves the entries that were there.
pub fn calls_grow<U: UnitKind>()
    ensures { CallsGrow U.meaning }
{}
