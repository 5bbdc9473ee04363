//! Seats are taken in.
ghost use Rattle.std.specs.Prelude.{◌≡◌, ◌≤◌, List, [], All, length, map, vec_capacity};
ghost use Rattle.turn_lock.specs.Handles.{view, turn_id, IsReady};
ghost use Rattle.crew.specs.Crew.{IsKept, Says};

use crate::seating::Member;
use turn_lock::{Counted, Seat, Turn};

/// Takes the seat of a member in, and answers its duty.
fn take_in<T: Counted, D>(
    turn: &Turn<T>,
    into: &mut Seat<T, T::Entry>,
    member: Member<Seat<T, T::Entry>, D>,
) -> D
    requires ready { IsReady (turn_id turn.now) into.old }
    requires other { IsReady (turn_id turn.now) member.seat }
    ensures ready { IsReady (turn_id turn.now) into.new }
    ensures duty { result ≡ member.duty }
    ensures kept { (log : List T.Entry) → Says T.seat_of log (view into.new) →
        Says T.seat_of log (view into.old) × IsKept T.seat_of log (view member.seat) }
{
    let Member { seat, duty } = member;
    let mut seat = seat;
    // What the seat has made is what it has seen of its own entries.
    let _len = turn.front(&mut seat);
    turn.join(into, seat);
    duty
}

/// Takes the seats of all members in, and answers their duties.
pub(crate) fn gather<T: Counted, D: Drop>(
    turn: &Turn<T>,
    into: &mut Seat<T, T::Entry>,
    members: Vec<Member<Seat<T, T::Entry>, D>>,
    room: Vec<D>,
) -> Vec<D>
    requires ready { IsReady (turn_id turn.now) into.old }
    requires members { All (λ m. IsReady (turn_id turn.now) m.seat) members.items }
    requires empty { room.items ≡ [] }
    requires room { length members.items ≤ vec_capacity room }
    ensures ready { IsReady (turn_id turn.now) into.new }
    ensures duties { result.items ≡ map (λ m. m.duty) members.items }
    ensures kept { (log : List T.Entry) → Says T.seat_of log (view into.new) →
        Says T.seat_of log (view into.old) × All (λ m. IsKept T.seat_of log (view m.seat)) members.items }
{
    let mut duties = room;
    for member in members {
        duties.push_reserved(take_in(turn, into, member));
    }
    duties
}
