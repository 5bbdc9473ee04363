ghost use Rattle.std.specs.Prelude.{◌≡◌, length};

use orc_io::Notify;
use session_model::{Entry, UnitKind};
use session_parts::Parts;

/// The parts of a session, and its journal; it must be spent, for its notifiers.
pub struct Live<U: UnitKind, N: Notify> {
    pub parts: Parts<U, N>,
    pub journal: Vec<Entry<U>>,
}

/// How many entries there are.
pub fn entry_count<T>(journal: &[T]) -> u64
    ensures { result ≡ length journal.now }
{
    journal.len() as u64
}
