//! What each step on the table tells, and how views are split and joined.
ghost use Rattle.turn_lock.specs.Told.{Counted as counted, Took, Added, Gave, Closed, Posted, FoundPost};
ghost use Rattle.turn_lock.specs.Views.{spares_less, split_off, note_of, joined, learns, spent};
ghost use Rattle.std.specs.Prelude.{List, []};

use crate::counted::Counted;
use crate::view::View;
use atomic_table::{Join, Play, Split};
use std::marker::{Brand, PhantomData};

/// A load of the count.
pub(crate) struct LoadCount<T> {
    value: PhantomData<T>,
}

impl<T: Counted> Play<Option<T>, View<T::Entry>> for LoadCount<T> {
    ghost then = { counted T.seat_of T.lawful T.posted };
}

/// A compare-exchange of the turn word, 0 to 1.
pub(crate) struct TakeTurn<T> {
    value: PhantomData<T>,
}

impl<T: Counted> Play<Option<T>, View<T::Entry>> for TakeTurn<T> {
    ghost then = { Took T.history T.seat_of T.lawful T.posted };
}

/// Names, for a proof, the history that a fetch-and-add makes.
pub(crate) trait Written<E> {
    ghost written: { List E };
}

impl<E> Written<E> for Brand {
    ghost written = { [] };
}

/// A fetch-and-add of the count.
pub(crate) struct AddEntry<T, W> {
    value: PhantomData<T>,
    written: PhantomData<W>,
}

impl<T: Counted, W: Written<T::Entry>> Play<Option<T>, View<T::Entry>> for AddEntry<T, W> {
    ghost then = { Added T.seat_of W.written };
}

/// A store of 0 in the turn word.
pub(crate) struct GiveTurn;

impl<T, E> Play<Option<T>, View<E>> for GiveTurn {
    ghost then = { Gave };
}

/// A store of 2 in the turn word.
pub(crate) struct CloseTurn;

impl<T, E> Play<Option<T>, View<E>> for CloseTurn {
    ghost then = { Closed };
}

/// A seat is cut in two: the new one has the lowest spare number.
pub(crate) struct NewSeat;

impl<E> Split<View<E>> for NewSeat {
    ghost left = { spares_less };

    ghost right = { split_off };
}

impl<E> Join<View<E>> for NewSeat {
    ghost both = { joined };

    ghost spent = { spent };
}

/// A note is made of what a seat has seen, and is told to another.
pub(crate) struct Note;

impl<E> Split<View<E>> for Note {
    ghost left = { λ v. v };

    ghost right = { note_of };
}

impl<E> Join<View<E>> for Note {
    ghost both = { learns };

    ghost spent = { spent };
}

/// A store of a word in a post.
pub(crate) struct StorePost;

impl<T, E> Play<Option<T>, View<E>> for StorePost {
    ghost then = { Posted };
}

/// A load of a post.
pub(crate) struct LoadPost;

impl<T, E> Play<Option<T>, View<E>> for LoadPost {
    ghost then = { FoundPost };
}
