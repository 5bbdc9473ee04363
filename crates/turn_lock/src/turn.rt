//! The turn.
ghost use Rattle.std.specs.Prelude.{◌≡◌, ◌+◌, ◌<◌, ◌^◌};

use crate::counted::Counted;
use crate::rule::Rule;
use crate::view::View;
use atomic_table::Table;
use std::alloc::Global;
use std::sync::atomic::AtomicU64;

mod calls;
mod ends;
mod passes;
mod posts;

/// The word that counts the entries of the history.
pub(crate) const COUNT: usize = 0;

/// The word that says who has the turn: 0 nobody, 1 a seat, 2 nobody any more.
pub(crate) const TURN: usize = 1;

/// The word of the first post.
pub(crate) const POSTS: usize = 2;

/// The slot where the value is while nobody has the turn.
pub(crate) const VALUE: usize = 0;

/// A value that seats take one after the other. One whose value may be let go may be let go too.
#[derive(Drop)]
pub struct Turn<T: Counted> {
    pub(crate) table: Table<Option<T>, View<T::Entry>, (u32, u64), Rule<T>, Global>,
    /// How many seats sleep or are about to, so that a `leave` with none asleep asks nothing of the
    /// system. No proof knows anything of it.
    pub(crate) sleepers: AtomicU64,
    ghost places: { (table.shared.table_id.words ≡ table.shared.key.1 + 2) × (table.shared.table_id.slots ≡ 1) },
    ghost few: { table.shared.key.1 + 2 < 2 ^ 64 },
}
