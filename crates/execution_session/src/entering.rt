//! An entry: it is written into its place, and what it settles settles.

ghost use Rattle.std.specs.Prelude.{◌≡◌, ◌∷◌, ◌++◌, [], false};
ghost use Rattle.std.specs.Vec.{vec_capacity};
ghost use Rattle.session_model.specs.Plain.{Plain};
ghost use Rattle.session_model.specs.State.{plain_event, plain_history};
ghost use Rattle.session_model.specs.Change.{change_of};
ghost use Rattle.closure_laws.specs.Quiet.{stirs};
ghost use Rattle.session_steps.specs.Performs.{state_of};
ghost use Rattle.session_steps.specs.Rest.{IsAtRest, Rests};
ghost use Rattle.session_steps.specs.Moved.{next, CanEnter};
ghost use Rattle.session_steps.specs.Fires.{AreFires};
ghost use Rattle.session_steps.specs.Steps.{lists};

use notifiers::Fires;
use orc_ids::SeatNo;
use orc_io::Notify;
use session_model::{Entry, Event, Reply, UnitKind, copy_reply};
use session_parts::Parts;
use session_steps::{Live, entry_count};
use std::mem::replace;

/// The entry is written into its place, and the queries that are met now end. Takes no memory.
pub(crate) fn enter<U: UnitKind, N: Notify, const JMAX: usize>(
    parts: &mut Parts<U, N>,
    journal: &mut Vec<Entry<U>>,
    entry: Entry<U>,
) -> Fires<N>
    ghost m: { Plain }
    requires same { m ≡ next U.meaning journal.old.items entry }
    requires can { CanEnter U.meaning JMAX journal.old.items (vec_capacity journal.old) entry parts.old }
    ensures rest { IsAtRest U.meaning JMAX parts.new journal.new.items (vec_capacity journal.new) }
    ensures grown { journal.new.items ≡ journal.old.items ++ entry ∷ [] }
    ensures fires { AreFires (plain_history U.meaning journal.new.items) parts.old.book.armed parts.new.book.armed result }
{
    journal.push_reserved(entry);
    let at = entry_count(journal);
    parts.settle(at)
}

/// The entry of an event that stirs no instance: no query settles. Takes no memory.
pub(crate) fn enter_quietly<U: UnitKind, N: Notify, const JMAX: usize>(
    live: &mut Live<U, N>,
    seat: SeatNo,
    event: Event<U>,
    reply: Reply,
) -> Reply
    requires plain { lists (plain_event U.meaning event) ≡ false }
    requires can { CanEnter U.meaning JMAX live.old.journal.items (vec_capacity live.old.journal) (record { seat = seat; event = event; reply = reply }) live.old.parts }
    requires quiet { stirs (change_of (state_of U.meaning live.old.journal.items) seat.0 (plain_event U.meaning event) reply) ≡ false }
    ensures rest { Rests U.meaning JMAX live.new }
    ensures grown { live.new.journal.items ≡ live.old.journal.items ++ record { seat = seat; event = event; reply = reply } ∷ [] }
    ensures armed { live.new.parts.book.armed ≡ live.old.parts.book.armed }
    ensures reply { result ≡ reply }
{
    let entry = Entry {
        seat,
        event,
        reply: copy_reply(&reply),
    };
    enter_silently::<U, N, JMAX>(live, entry);
    reply
}

/// The entry of an event whose reply has no list: whom it settles is to be told. Takes no memory.
pub(crate) fn enter_stirring<U: UnitKind, N: Notify, const JMAX: usize>(
    live: &mut Live<U, N>,
    seat: SeatNo,
    event: Event<U>,
    reply: Reply,
    fires: &mut Fires<N>,
) -> Reply
    requires plain { lists (plain_event U.meaning event) ≡ false }
    requires can { CanEnter U.meaning JMAX live.old.journal.items (vec_capacity live.old.journal) (record { seat = seat; event = event; reply = reply }) live.old.parts }
    requires nobody { fires.old ≡ [] }
    ensures rest { Rests U.meaning JMAX live.new }
    ensures grown { live.new.journal.items ≡ live.old.journal.items ++ record { seat = seat; event = event; reply = reply } ∷ [] }
    ensures fires { AreFires (plain_history U.meaning live.new.journal.items) live.old.parts.book.armed live.new.parts.book.armed fires.new }
    ensures reply { result ≡ reply }
{
    let entry = Entry {
        seat,
        event,
        reply: copy_reply(&reply),
    };
    let told = enter::<U, N, JMAX>(&mut live.parts, &mut live.journal, entry);
    replace(fires, told).end();
    reply
}

/// An entry that stirs no instance, whatever its reply is: no query settles. Takes no memory.
pub(crate) fn enter_silently<U: UnitKind, N: Notify, const JMAX: usize>(
    live: &mut Live<U, N>,
    entry: Entry<U>,
)
    requires can { CanEnter U.meaning JMAX live.old.journal.items (vec_capacity live.old.journal) entry live.old.parts }
    requires quiet { stirs (change_of (state_of U.meaning live.old.journal.items) entry.seat.0 (plain_event U.meaning entry.event) entry.reply) ≡ false }
    ensures rest { Rests U.meaning JMAX live.new }
    ensures grown { live.new.journal.items ≡ live.old.journal.items ++ entry ∷ [] }
    ensures armed { live.new.parts.book.armed ≡ live.old.parts.book.armed }
{
    let fires = enter::<U, N, JMAX>(&mut live.parts, &mut live.journal, entry);
    fires.end();
}
