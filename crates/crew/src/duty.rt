//! What one seat does.
ghost use Rattle.std.specs.Prelude.{◌≡◌, ℕ};
ghost use Rattle.turn_lock.specs.Handles.{view, turn_id, post_count, IsReady};
ghost use Rattle.turn_lock.specs.declared.view.View.{View};

use std::sync::Wait;
use turn_lock::{Counted, Seat, Turn};

/// The work of a seat of a turn, which is done once.
pub trait Duty<T: Counted> {
    /// Whether a seat may begin that knows this, of a turn with so many posts.
    ghost may: { ℕ → Self → View T.Entry → Type 0 };

    /// What is done: by the duty before and after, and what its seat knew and knows.
    ghost does: { Self → Self → View T.Entry → View T.Entry → Type 0 };

    /// Does it.
    fn serve<R: Wait>(&mut self, rt: &R, turn: &Turn<T>, seat: &mut Seat<T, T::Entry>)
        requires ready { IsReady (turn_id turn.now) seat.old }
        requires may { may (post_count turn.now) self.old (view seat.old) }
        ensures ready { IsReady (turn_id turn.now) seat.new }
        ensures number { (view seat.new).number ≡ (view seat.old).number }
        ensures does { does self.old self.new (view seat.old) (view seat.new) };
}
