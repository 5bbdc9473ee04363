//! The turn, while a seat has it.
use crate::counted::Counted;
use crate::seat::Seat;
use crate::turn::Turn;

mod calls;

/// A seat that has the turn, and the value, which is out of its place. It must be spent by `leave`.
pub struct Held<'a, T: Counted> {
    pub(crate) seat: &'a mut Seat<T, T::Entry>,
    pub(crate) turn: &'a Turn<T>,
    pub(crate) value: T,
}
