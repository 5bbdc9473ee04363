//! The rule of the table that a turn stands on.
ghost use Rattle.turn_lock.specs.Rule.{Kept};
ghost use Rattle.turn_lock.specs.Views.{first_view};

use crate::counted::Counted;
use crate::view::View;
use atomic_table::TableRule;
use std::marker::PhantomData;

/// What the words, the value at home and the views of all seats have in common. Its key is the
/// number of seats and the number of posts.
pub struct Rule<T> {
    value: PhantomData<T>,
}

impl<T: Counted> TableRule<Option<T>, View<T::Entry>, (u32, u64)> for Rule<T> {
    ghost holds = { Kept T.history T.seat_of T.lawful T.posted };

    ghost first = { first_view };
}
