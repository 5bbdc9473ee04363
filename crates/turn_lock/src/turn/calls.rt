//! What is done with a turn.
ghost use Rattle.std.specs.Prelude.{◌≡◌, ℕ, ◌<◌, ◌≤◌, List, length};
ghost use Rattle.turn_lock.specs.Handles.{view, turn_of, turn_id, IsReady};
ghost use Rattle.turn_lock.specs.Lists.{StartsWith};
ghost use Rattle.turn_lock.specs.Views.{sees, spares_less, split_off, joined};
ghost use Rattle.turn_lock.specs.Told.{Shows};

use super::{COUNT, Turn};
use crate::counted::Counted;
use crate::plays::{LoadCount, NewSeat, Note};
use crate::seat::Seat;

impl<T: Counted> Turn<T> {
    /// The length of the history, which the seat has then seen: one load, whoever has the turn.
    pub fn front(&self, seat: &mut Seat<T, T::Entry>) -> u64
        requires { IsReady (turn_id self.now) seat.old }
        ensures same { turn_of seat.new ≡ turn_of seat.old }
        ensures front { result ≡ length (view seat.new).seen }
        ensures seen { let log = (view seat.new).seen in (view seat.new ≡ sees log (view seat.old)) × Shows T.seat_of T.lawful T.posted log (view seat.old) }
    {
        let shared = &self.table.shared;
        shared.load::<LoadCount<T>>(&mut seat.seat, COUNT)
    }

    /// A new seat, with the lowest spare number of this one.
    pub fn split(&self, seat: &mut Seat<T, T::Entry>) -> Seat<T, T::Entry>
        requires ready { IsReady (turn_id self.now) seat.old }
        requires spare { (view seat.old).spare_from < (view seat.old).spare_to }
        ensures same { (turn_of seat.new ≡ turn_of seat.old) × (turn_of result ≡ turn_of seat.old) }
        ensures old_seat { view seat.new ≡ spares_less (view seat.old) }
        ensures new_seat { view result ≡ split_off (view seat.old) }
    {
        let number = seat.spare_from;
        let other = self.table.shared.split_seat::<NewSeat>(&mut seat.seat);
        seat.spare_from = number + 1;
        Seat {
            seat: other,
            number,
            spare_from: 0,
            spare_to: 0,
        }
    }

    /// Ends a seat, and hands all that it knows on to another.
    pub fn join(&self, into: &mut Seat<T, T::Entry>, from: Seat<T, T::Entry>)
        requires ready { IsReady (turn_id self.now) into.old }
        requires other { IsReady (turn_id self.now) from }
        ensures same { turn_of into.new ≡ turn_of into.old }
        ensures joined { view into.new ≡ joined (view into.old) (view from) }
    {
        let Seat { seat: other, .. } = from;
        self.table
            .shared
            .join_seat::<NewSeat>(&mut into.seat, other);
    }

    /// Makes `to` see all that `from` has seen: a note of it, and a load of the count.
    pub fn meet(&self, from: &mut Seat<T, T::Entry>, to: &mut Seat<T, T::Entry>)
        requires from { IsReady (turn_id self.now) from.old }
        requires to { IsReady (turn_id self.now) to.old }
        ensures same { (turn_of from.new ≡ turn_of from.old) × (turn_of to.new ≡ turn_of to.old) }
        ensures stays { view from.new ≡ view from.old }
        ensures seen { let log = (view to.new).seen in (view to.new ≡ sees log (view to.old)) × Shows T.seat_of T.lawful T.posted log (view to.old) }
        ensures met { StartsWith (view to.new).seen (view from.old).seen }
    {
        let shared = &self.table.shared;
        let note = shared.split_seat::<Note>(&mut from.seat);
        shared.join_seat::<Note>(&mut to.seat, note);
        shared.load::<LoadCount<T>>(&mut to.seat, COUNT);
    }
}
