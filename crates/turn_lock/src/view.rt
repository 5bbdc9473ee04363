//! What a seat knows.
use std::collections::LinkedList;

/// What a seat or a note knows of the history, and which numbers are its own. No value of it is
/// made: it stands in clauses and proofs alone.
pub struct View<E> {
    /// Whether it has a number of its own: a seat has one; a note, and what was joined away, has none.
    pub numbered: bool,
    /// The seat's number.
    pub number: u32,
    /// Whether it has the turn.
    pub turn: bool,
    /// Whether it has closed the turn for good.
    pub shuts: bool,
    /// The beginning of the history that it has seen.
    pub seen: LinkedList<E>,
    /// Beginnings of the history that joins brought, until the seat sees the history again.
    pub told: LinkedList<LinkedList<E>>,
    /// The entries with its number, in order.
    pub mine: LinkedList<E>,
    /// The numbers of the seats that it took in, each with that seat's entries.
    pub ended: LinkedList<(u32, LinkedList<E>)>,
    /// The first number that it may still give to a new seat.
    pub spare_from: u32,
    /// The number behind the last that it may still give.
    pub spare_to: u32,
    /// How many of its own compare-exchanges found the turn taken.
    pub found: u64,
    /// Posts that it knows to be filled, each with what stands there.
    pub noted: LinkedList<(u64, u64)>,
    /// The posts that it found empty, in order.
    pub zeros: LinkedList<u64>,
    /// The number of seats given at the opening.
    pub seats: u32,
}
