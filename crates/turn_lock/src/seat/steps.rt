//! The steps that a seat makes on the table of its turn.
ghost use Rattle.std.specs.Prelude.{◌≡◌, ℕ, ◌+◌, ◌-◌, ◌<◌, ◌≤◌, ◌⊎◌, ◌++◌, ◌∷◌, List, [], length, IfOk, OnErr, true};
ghost use Rattle.turn_lock.specs.Handles.{view, turn_of, turn_id, IsReady};
ghost use Rattle.turn_lock.specs.Views.{takes_turn, finds_taken, tried, adds, grows, gives_turn, closes};
ghost use Rattle.turn_lock.specs.Told.{Shows};
ghost use Rattle.turn_lock.specs.Rule.{Accounts};

use super::{Busy, Seat};
use crate::counted::Counted;
use crate::plays::{AddEntry, CloseTurn, GiveTurn, TakeTurn, Written};
use crate::turn::{COUNT, TURN, Turn, VALUE};
use std::marker::Brand;
use std::sync::Wait;
use std::sync::atomic::Ordering::SeqCst;

impl<T, E> Seat<T, E> {
    /// The seat's number.
    pub fn number(&self) -> u32
        ensures { result ≡ (view self.now).number }
    {
        self.number
    }

    /// How many numbers it may still give to new seats.
    pub fn spares(&self) -> u32
        ensures { result ≡ (view self.now).spare_to - (view self.now).spare_from }
    {
        self.spare_to.saturating_sub(self.spare_from)
    }
}

impl<T: Counted> Seat<T, T::Entry> {
    /// Takes the turn if it is free, and the value out.
    pub(crate) fn take(&mut self, turn: &Turn<T>) -> Result<T, Busy>
        requires { IsReady (turn_id turn.now) self.old }
        ensures same { turn_of self.new ≡ turn_of self.old }
        ensures taken { IfOk result (λ x. (view self.new ≡ takes_turn (T.history x) (view self.old)) × Shows T.seat_of T.lawful T.posted (T.history x) (view self.old)) }
        ensures busy { OnErr result (view self.new ≡ finds_taken (view self.old)) }
    {
        let shared = &turn.table.shared;
        if shared.compare_exchange::<TakeTurn<T>>(&mut self.seat, TURN, 0, 1) != 0 {
            return Err(Busy);
        }
        Ok(shared.exchange(&mut self.seat, VALUE, None).unwrap())
    }

    /// Takes the turn, and the value out, and sleeps while the turn is taken.
    pub(crate) fn wait<R: Wait>(&mut self, rt: &R, turn: &Turn<T>) -> T
        requires { IsReady (turn_id turn.now) self.old }
        ensures same { turn_of self.new ≡ turn_of self.old }
        ensures taken { (found : ℕ) × ((view self.old).found ≤ found) × (view self.new ≡ takes_turn (T.history result) (tried found (view self.old))) }
        ensures shows { Shows T.seat_of T.lawful T.posted (T.history result) (view self.old) }
    {
        for _ in rt.forever() {
            if let Ok(value) = self.take(turn) {
                return value;
            }
            turn.sleepers.fetch_add(1, SeqCst);
            turn.table.shared.park(rt, TURN, 1);
            turn.sleepers.fetch_sub(1, SeqCst);
        }
        unreachable!()
    }

    /// Raises the count for the last entry of the value, which `W` names for the proof.
    pub(crate) fn add<W: Written<T::Entry>>(&mut self, turn: &Turn<T>, value: &T) -> u64
        requires own { (turn_of self.old ≡ turn_id turn.now) × ((view self.old).turn ≡ true) }
        requires names { W.written ≡ T.history value.now }
        requires one_more { (e : T.Entry) × (T.history value.now ≡ (view self.old).seen ++ e ∷ []) × (T.seat_of e ≡ (view self.old).number) }
        ensures same { turn_of self.new ≡ turn_of self.old }
        ensures added { (e : T.Entry) × (T.history value.now ≡ (view self.old).seen ++ e ∷ []) × (view self.new ≡ adds e (view self.old)) }
        ensures found { result ≡ length (view self.old).seen }
        ensures legal { T.lawful (T.history value.now) }
        ensures accounts { Accounts T.seat_of (T.history value.now) (view self.new) }
    {
        // A value that counts its entries in a u64 has no more than the word can count.
        let _len = value.history_len();
        let shared = &turn.table.shared;
        shared.fetch_add::<AddEntry<T, W>>(&mut self.seat, COUNT, 1)
    }

    /// Raises the count if the value has an entry more than before.
    pub(crate) fn add_new(&mut self, turn: &Turn<T>, value: &T, before: u64)
        requires own { (turn_of self.old ≡ turn_id turn.now) × ((view self.old).turn ≡ true) }
        requires before { before ≡ length (view self.old).seen }
        requires one_at_most { (T.history value.now ≡ (view self.old).seen) ⊎ ((e : T.Entry) × (T.history value.now ≡ (view self.old).seen ++ e ∷ []) × (T.seat_of e ≡ (view self.old).number)) }
        requires accounts { Accounts T.seat_of (view self.old).seen (view self.old) }
        ensures same { turn_of self.new ≡ turn_of self.old }
        ensures grown { (more : List T.Entry) × (T.history value.now ≡ (view self.old).seen ++ more) × (view self.new ≡ grows more (view self.old)) }
        ensures legal { T.lawful (T.history value.now) }
        ensures accounts { Accounts T.seat_of (T.history value.now) (view self.new) }
    {
        if value.history_len() > before {
            self.add::<Brand>(turn, value);
        }
    }

    /// Puts the value home, gives the turn, and wakes a seat that waits for it.
    pub(crate) fn give(&mut self, turn: &Turn<T>, value: T)
        requires own { (turn_of self.old ≡ turn_id turn.now) × ((view self.old).turn ≡ true) }
        requires counted { T.history value ≡ (view self.old).seen }
        ensures same { turn_of self.new ≡ turn_of self.old }
        ensures given { view self.new ≡ gives_turn (view self.old) }
    {
        let shared = &turn.table.shared;
        let home = shared.exchange(&mut self.seat, VALUE, Some(value));
        let None = home else { unreachable!() };
        shared.store::<GiveTurn>(&mut self.seat, TURN, 0);
        if turn.sleepers.load(SeqCst) > 0 {
            shared.wake_one(TURN);
        }
    }

    /// Closes the turn for good, with nothing at home.
    pub(crate) fn shut(&mut self, turn: &Turn<T>)
        requires own { (turn_of self.old ≡ turn_id turn.now) × ((view self.old).turn ≡ true) }
        ensures same { turn_of self.new ≡ turn_of self.old }
        ensures closed { view self.new ≡ closes (view self.old) }
    {
        let shared = &turn.table.shared;
        shared.store::<CloseTurn>(&mut self.seat, TURN, 2);
    }
}
