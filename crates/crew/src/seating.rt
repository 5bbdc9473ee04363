//! Seats are given out.
ghost use Rattle.std.specs.Prelude.{◌≡◌, ◌+◌, ◌≤◌, ℕ, List, [], length, map, vec_capacity};
ghost use Rattle.atomic_table.specs.Seated.{TableId};
ghost use Rattle.turn_lock.specs.Handles.{view, turn_id, IsReady};
ghost use Rattle.crew.specs.Crew.{AreSeats, AreSeated};

use turn_lock::{Counted, Seat, Turn};

/// A duty and the seat that it has.
#[derive(Drop)]
pub(crate) struct Member<S, D> {
    pub(crate) seat: S,
    pub(crate) duty: D,
}

/// So many new seats, in the order of their numbers.
pub(crate) fn new_seats<T: Counted>(
    turn: &Turn<T>,
    first: &mut Seat<T, T::Entry>,
    room: Vec<Seat<T, T::Entry>>,
    count: usize,
) -> Vec<Seat<T, T::Entry>>
    requires ready { IsReady (turn_id turn.now) first.old }
    requires spare { (view first.old).spare_from + count ≤ (view first.old).spare_to }
    requires empty { room.items ≡ [] }
    requires room { count ≤ vec_capacity room }
    ensures ready { IsReady (turn_id turn.now) first.new }
    ensures same { view first.new ≡ record (view first.old) { spare_from = (view first.old).spare_from + count } }
    ensures count { length result.items ≡ count }
    ensures seats { AreSeats (turn_id turn.now) (view first.old).spare_from (view first.old).seen result.items }
{
    let mut seats = room;
    for _seat in 0..count {
        seats.push_reserved(turn.split(first));
    }
    seats
}

/// A member for each duty. The last one gets the first seat.
pub(crate) fn seat_duties<T: Counted, D: Drop>(
    seats: Vec<Seat<T, T::Entry>>,
    duties: Vec<D>,
    room: Vec<Member<Seat<T, T::Entry>, D>>,
) -> Vec<Member<Seat<T, T::Entry>, D>>
    requires count { length seats.items ≡ length duties.items }
    requires empty { room.items ≡ [] }
    requires room { length duties.items ≤ vec_capacity room }
    ensures duties { map (λ m. m.duty) result.items ≡ duties.items }
    ensures seated { (turn : TableId) (from : ℕ) (seen : List T.Entry) → AreSeats turn from seen seats.items → AreSeated turn (from + length duties.items) seen result.items }
{
    let mut seats = seats;
    let mut members = room;
    for duty in duties {
        match seats.pop() {
            Some(seat) => members.push_reserved(Member { seat, duty }),
            None => unreachable!(),
        }
    }
    members
}
