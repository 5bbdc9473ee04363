//! Posts: words that seats fill and read without the turn.
ghost use Rattle.std.specs.Prelude.{◌≡◌, ◌≢◌, ◌<◌, All};
ghost use Rattle.turn_lock.specs.Handles.{view, turn_of, turn_id, post_count, IsReady};
ghost use Rattle.turn_lock.specs.Views.{notes};
ghost use Rattle.turn_lock.specs.Told.{Reads};

use super::{COUNT, POSTS, Turn};
use crate::counted::Counted;
use crate::plays::{LoadCount, LoadPost, StorePost};
use crate::seat::Seat;

impl<T: Counted> Turn<T> {
    /// Fills a post with what the seat has seen of it: one store, which waits for nobody.
    pub fn post(&self, seat: &mut Seat<T, T::Entry>, k: u64, v: u64)
        requires ready { IsReady (turn_id self.now) seat.old }
        requires there { k < post_count self.now }
        requires shown { T.posted (view seat.old).seen k v }
        requires filled { v ≢ 0 }
        ensures same { turn_of seat.new ≡ turn_of seat.old }
        ensures noted { view seat.new ≡ notes k v (view seat.old) }
    {
        let shared = &self.table.shared;
        shared.store::<StorePost>(&mut seat.seat, POSTS + k as usize, v);
    }

    /// What stands in a post, 0 while it is empty: one load of it and one of the count, which wait for
    /// nobody. The seat has then seen a history that shows a word other than 0.
    pub fn read_post(&self, seat: &mut Seat<T, T::Entry>, k: u64) -> u64
        requires ready { IsReady (turn_id self.now) seat.old }
        requires there { k < post_count self.now }
        ensures same { turn_of seat.new ≡ turn_of seat.old }
        ensures read { Reads T.seat_of T.lawful T.posted k result (view seat.old) (view seat.new) }
        ensures known { All (λ p. p.0 ≡ k → result ≡ p.1) (view seat.old).noted }
        ensures shown { result ≢ 0 → T.posted (view seat.new).seen k result }
    {
        let shared = &self.table.shared;
        let word = shared.load::<LoadPost>(&mut seat.seat, POSTS + k as usize);
        shared.load::<LoadCount<T>>(&mut seat.seat, COUNT);
        word
    }
}
