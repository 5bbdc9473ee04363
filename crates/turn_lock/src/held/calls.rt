//! How a seat gets the turn, and what it does with it.
ghost use Rattle.std.specs.Prelude.{◌≡◌, ℕ, ◌≤◌, ◌++◌, ◌∷◌, [], length, IfOk};
ghost use Rattle.std.specs.Borrow.{sem};
ghost use Rattle.turn_lock.specs.Handles.{view, turn_of, turn_id, IsReady, IsHeld, held_view, held_turn, held_value};
ghost use Rattle.turn_lock.specs.Views.{takes_turn, finds_taken, tried, adds, gives_turn};
ghost use Rattle.turn_lock.specs.Told.{Shows};
ghost use Rattle.turn_lock.specs.Rule.{Accounts};
ghost use Rattle.turn_lock.specs.Lending.{seat_rests, lends_value};

use super::Held;
use crate::counted::Counted;
use crate::seat::{Busy, Seat};
use crate::turn::Turn;
use std::marker::Brand;
use std::sync::Wait;

impl<T: Counted> Turn<T> {
    /// Waits for the turn, asleep while it is taken.
    pub fn enter<'a, R: Wait>(&'a self, rt: &R, seat: &'a mut Seat<T, T::Entry>) -> Held<'a, T>
        requires { IsReady (turn_id self.now) seat.old }
        ensures same_reference { result.seat.ghost_name ≡ seat.entry.ghost_name }
        ensures held { IsHeld result × (held_turn result ≡ turn_id self.now) }
        ensures taken { (found : ℕ) × ((view seat.old).found ≤ found) × (held_view result ≡ takes_turn (T.history (held_value result)) (tried found (view seat.old))) }
        ensures shows { Shows T.seat_of T.lawful T.posted (T.history (held_value result)) (view seat.old) }
    {
        let value = seat.wait(rt, self);
        Held {
            seat,
            turn: self,
            value,
        }
    }
}

impl<T: Counted> Seat<T, T::Entry> {
    /// Takes the turn if it is free: one compare-exchange, which waits for nobody.
    pub fn try_enter<'a>(&'a mut self, turn: &'a Turn<T>) -> Result<Held<'a, T>, Busy>
        requires { IsReady (turn_id turn.now) self.old }
        ensures* busy { sem 𝓛 (seat_rests T.row T.Entry.row self.entry result) }
        ensures same_reference { IfOk result (λ held. held.seat.ghost_name ≡ self.entry.ghost_name) }
        ensures held { IfOk result (λ held. IsHeld held × (held_turn held ≡ turn_id turn.now)) }
        ensures taken { IfOk result (λ held. held_view held ≡ takes_turn (T.history (held_value held)) (view self.old)) }
        ensures shows { IfOk result (λ held. Shows T.seat_of T.lawful T.posted (T.history (held_value held)) (view self.old)) }
    {
        let value = self.take(turn)?;
        Ok(Held {
            seat: self,
            turn,
            value,
        })
    }
}

impl<'a, T: Counted> Held<'a, T> {
    /// The value, to be changed. What is left of it must have a history that `step` or `leave` takes.
    pub fn value(&mut self) -> &mut T
        ensures* writes_back { sem 𝓛 (lends_value T.row T.Entry.row T.Counted self.entry result) }
        ensures value { result.now ≡ held_value self.old }
    {
        &mut self.value
    }

    /// Makes the event of one entry, which the value has as its last: the fetch-and-add of the count.
    pub fn step(&mut self, entry: u64)
        requires held { IsHeld self.old }
        requires one_more { (e : T.Entry) × (T.history (held_value self.old) ≡ (held_view self.old).seen ++ e ∷ []) × (T.seat_of e ≡ (held_view self.old).number) }
        requires number { entry ≡ length (held_view self.old).seen }
        ensures same_reference { self.new.seat.ghost_name ≡ self.old.seat.ghost_name }
        ensures held { IsHeld self.new × (held_turn self.new ≡ held_turn self.old) × (held_value self.new ≡ held_value self.old) }
        ensures added { (e : T.Entry) × (T.history (held_value self.old) ≡ (held_view self.old).seen ++ e ∷ []) × (held_view self.new ≡ adds e (held_view self.old)) }
        ensures legal { T.lawful (T.history (held_value self.old)) }
        ensures accounts { Accounts T.seat_of (T.history (held_value self.old)) (held_view self.new) }
    {
        let found = self.seat.add::<Brand>(self.turn, &self.value);
        prove!(found == entry);
    }

    /// Puts the value home, gives the turn, and wakes a seat that waits for it.
    pub fn leave(self)
        requires held { IsHeld self }
        requires counted { T.history (held_value self) ≡ (held_view self).seen }
        ensures same { turn_of self.exit.0.now ≡ held_turn self.entry }
        ensures given { view self.exit.0.now ≡ gives_turn (held_view self.entry) }
    {
        let Held { seat, turn, value } = self;
        seat.give(turn, value);
    }
}
