//! What an event that may settle queries answers.

ghost use Rattle.std.specs.Prelude.{◌≡◌, ◌∷◌, ◌++◌, [], false, Ok, Err};
ghost use Rattle.std.specs.Vec.{vec_capacity};
ghost use Rattle.session_model.specs.State.{plain_event, plain_history};
ghost use Rattle.session_steps.specs.Rest.{Rests};
ghost use Rattle.session_steps.specs.Moved.{CanEnter};
ghost use Rattle.session_steps.specs.Fires.{AreFires};
ghost use Rattle.session_steps.specs.Steps.{lists};

use crate::entering::enter_stirring;
use crate::session::Told;
use notifiers::Fires;
use orc_ids::{SeatNo, Stop};
use orc_io::Notify;
use session_model::{Event, Reply, UnitKind};
use session_steps::Live;

/// The event was stopped, and tells nobody.
pub(crate) fn stopped<N: Notify>(stop: Stop) -> Told<N>
    ensures answer { result.answer ≡ Err stop }
    ensures fires { result.fires ≡ [] }
{
    Told {
        answer: Err(stop),
        fires: Fires::new(),
    }
}

/// The entry of an event that lodges no query: the notifiers of the queries that it settles are handed
/// out. Takes no memory.
pub(crate) fn enter_telling<U: UnitKind, N: Notify, const JMAX: usize>(
    live: &mut Live<U, N>,
    seat: SeatNo,
    event: Event<U>,
    reply: Reply,
) -> Told<N>
    requires plain { lists (plain_event U.meaning event) ≡ false }
    requires can { CanEnter U.meaning JMAX live.old.journal.items (vec_capacity live.old.journal) (record { seat = seat; event = event; reply = reply }) live.old.parts }
    ensures rest { Rests U.meaning JMAX live.new }
    ensures grown { live.new.journal.items ≡ live.old.journal.items ++ record { seat = seat; event = event; reply = reply } ∷ [] }
    ensures fires { AreFires (plain_history U.meaning live.new.journal.items) live.old.parts.book.armed live.new.parts.book.armed result.fires }
    ensures answer { result.answer ≡ Ok reply }
{
    let mut fires = Fires::new();
    let reply = enter_stirring::<U, N, JMAX>(live, seat, event, reply, &mut fires);
    Told {
        answer: Ok(reply),
        fires,
    }
}
