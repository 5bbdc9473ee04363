//! Calls that are made in one turn.
ghost use Rattle.std.specs.Prelude.{◌≡◌, true, IfOk, IfErr};
ghost use Rattle.turn_lock.specs.Handles.{view, turn_of, turn_id, IsReady};
ghost use Rattle.turn_lock.specs.Passes.{Turned, Made};
ghost use Rattle.turn_lock.specs.Rule.{Accounts};
ghost use Rattle.turn_lock.specs.Views.{finds_taken};

use super::Turn;
use crate::call::Call;
use crate::counted::Counted;
use crate::seat::Seat;
use std::sync::Wait;

impl<T: Counted> Turn<T> {
    /// Waits for the turn, makes the call, and gives the turn.
    pub fn perform<R: Wait, C: Call<T>>(
        &self,
        rt: &R,
        seat: &mut Seat<T, T::Entry>,
        call: C,
    ) -> C::Answer
        requires ready { IsReady (turn_id self.now) seat.old }
        requires may { C.may call (view seat.old).number (view seat.old).seen }
        ensures ready { IsReady (turn_id self.now) seat.new }
        ensures turned { Turned T.seat_of T.lawful T.posted (view seat.old) (view seat.new) (λ old new. C.does call (view seat.old).number old new result) }
    {
        let value = seat.wait(rt, self);
        self.make(seat, value, call)
    }

    /// Makes the call if the turn is free, and hands it back if it is taken: one compare-exchange,
    /// which waits for nobody.
    pub fn try_perform<C: Call<T>>(
        &self,
        seat: &mut Seat<T, T::Entry>,
        call: C,
    ) -> Result<C::Answer, C>
        requires ready { IsReady (turn_id self.now) seat.old }
        requires may { C.may call (view seat.old).number (view seat.old).seen }
        ensures ready { IsReady (turn_id self.now) seat.new }
        ensures turned { IfOk result (λ a. Turned T.seat_of T.lawful T.posted (view seat.old) (view seat.new) (λ old new. C.does call (view seat.old).number old new a)) }
        ensures tries { IfOk result (λ a. (view seat.new).found ≡ (view seat.old).found) }
        ensures busy { IfErr result (λ back. (back ≡ call) × (view seat.new ≡ finds_taken (view seat.old))) }
    {
        match seat.take(self) {
            Ok(value) => Ok(self.make(seat, value, call)),
            Err(_) => Err(call),
        }
    }

    /// Makes the call with the turn, raises the count for its entry, and gives the turn.
    fn make<C: Call<T>>(&self, seat: &mut Seat<T, T::Entry>, mut value: T, call: C) -> C::Answer
        requires own { (turn_of seat.old ≡ turn_id self.now) × ((view seat.old).turn ≡ true) }
        requires counted { T.history value ≡ (view seat.old).seen }
        requires accounts { Accounts T.seat_of (view seat.old).seen (view seat.old) }
        requires may { C.may call (view seat.old).number (view seat.old).seen }
        ensures ready { IsReady (turn_id self.now) seat.new }
        ensures made { Made T.seat_of T.lawful (view seat.old) (view seat.new) (λ old new. C.does call (view seat.old).number old new result) }
    {
        let before = value.history_len();
        let answer = call.make(&mut value, seat.number());
        seat.add_new(self, &value, before);
        seat.give(self, value);
        answer
    }
}
