//! A seat, as its owner holds it.
ghost use Rattle.std.specs.Prelude.{◌≡◌, true, [], ◌∷◌, None, cond};

use crate::view::View;
use atomic_table::Seat as TableSeat;

mod steps;

/// The right to take turns, of one turn: a number, and what its owner knows of the history. It takes
/// no memory. A seat that is dropped ends with what it knows, and its number is given no more.
#[derive(Drop)]
pub struct Seat<T, E> {
    pub(crate) seat: TableSeat<Option<T>, View<E>>,
    pub(crate) number: u32,
    pub(crate) spare_from: u32,
    pub(crate) spare_to: u32,
    ghost numbered: { seat.me.0.numbered ≡ true },
    ghost numbers: { (seat.me.0.number ≡ number) × (seat.me.0.spare_from ≡ spare_from) × (seat.me.0.spare_to ≡ spare_to) },
    ghost slots: { seat.me.1 ≡ cond seat.me.0.turn ((0, None) ∷ []) [] },
}

/// The turn was taken.
#[derive(Clone, Copy, Debug, PartialEq, Eq)]
pub struct Busy;
