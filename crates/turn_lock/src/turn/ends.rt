//! How a turn begins and ends.
ghost use Rattle.std.specs.Prelude.{◌≡◌, ◌<◌, [], ◌∷◌, replicate, IfOk, IfErr};
ghost use Rattle.turn_lock.specs.Handles.{view, turn_of, turn_id, post_count, IsReady};
ghost use Rattle.turn_lock.specs.Views.{first_view};
ghost use Rattle.turn_lock.specs.Told.{Shows};

use super::{POSTS, Turn, VALUE};
use crate::counted::Counted;
use crate::seat::Seat;
use atomic_table::{Refused, Table};
use std::alloc::{AllocError, AllocFailed, Global};
use std::sync::Wait;
use std::sync::atomic::AtomicU64;

impl<T: Counted> Turn<T> {
    /// A turn round a value with no history yet, for so many seats, and its first seat, which has
    /// number 0 and spares the others. It has no posts. Where there is no memory the value comes
    /// back.
    pub fn open(
        alloc: Global,
        value: T,
        seats: u32,
    ) -> Result<(Turn<T>, Seat<T, T::Entry>), AllocFailed<T>>
        requires { (T.history value ≡ []) × (0 < seats) }
        ensures opened { IfOk result (λ r. (turn_of r.1 ≡ turn_id r.0) × (view r.1 ≡ first_view (seats, 0))) }
        ensures posts { IfOk result (λ r. post_count r.0 ≡ 0) }
        ensures refused { IfErr result (λ r. r.value ≡ value) }
    {
        Turn::open_posts(alloc, value, seats, 0)
    }

    /// The same with so many posts, all of them empty.
    pub fn open_posts(
        alloc: Global,
        value: T,
        seats: u32,
        posts: u64,
    ) -> Result<(Turn<T>, Seat<T, T::Entry>), AllocFailed<T>>
        requires { (T.history value ≡ []) × (0 < seats) }
        ensures opened { IfOk result (λ r. (turn_of r.1 ≡ turn_id r.0) × (view r.1 ≡ first_view (seats, posts))) }
        ensures posts { IfOk result (λ r. post_count r.0 ≡ posts) }
        ensures refused { IfErr result (λ r. r.value ≡ value) }
    {
        // Each value's history is lawful, so the empty one is.
        let _len = value.history_len();
        let Ok(words) = blank_words(alloc, posts) else {
            return Err(AllocFailed { value });
        };
        let mut slots = match Vec::with_capacity(alloc, 1) {
            Ok(slots) => slots,
            Err(_) => return Err(AllocFailed { value }),
        };
        slots.push_reserved(Some(value));
        match Table::new(alloc, &words, slots, &(seats, posts)) {
            Ok((table, seat)) => Ok((
                Turn {
                    table,
                    sleepers: AtomicU64::new(0),
                },
                Seat {
                    seat,
                    number: 0,
                    spare_from: 1,
                    spare_to: seats,
                },
            )),
            Err(Refused { slots }) => Err(AllocFailed { value: only(slots) }),
        }
    }

    /// Waits for the turn, ends it, and gives the value. What other seats know is lost.
    pub fn close<R: Wait>(self, rt: &R, seat: Seat<T, T::Entry>) -> T
        requires { IsReady (turn_id self) seat }
        ensures { Shows T.seat_of T.lawful T.posted (T.history result) (view seat) }
    {
        let mut seat = seat;
        let value = seat.wait(rt, &self);
        seat.shut(&self);
        let Turn { table, .. } = self;
        let Seat { seat, .. } = seat;
        let mut closed = table.close_with(seat);
        let home = closed.take(VALUE);
        let None = home else { unreachable!() };
        closed.free();
        value
    }
}

/// The words of a turn at its opening: the count, the turn, and so many posts.
fn blank_words(alloc: Global, posts: u64) -> Result<Vec<u64>, AllocError>
    ensures { IfOk result (λ words. words.items ≡ 0 ∷ 0 ∷ replicate posts 0) }
{
    let Some(count) = POSTS.checked_add(posts as usize) else {
        return Err(AllocError);
    };
    vec![in alloc; 0; count]
}

/// The one value in a row of slots.
fn only<T>(mut slots: Vec<Option<T>>) -> T
    requires { (x : T) × (slots.items ≡ Some x ∷ []) }
    ensures { slots.items ≡ Some result ∷ [] }
{
    let value = slots.pop().unwrap().unwrap();
    slots.destroy_empty();
    value
}
