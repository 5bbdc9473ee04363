//! A session that many threads share: every event is made in one turn, and each seat knows what it has
//! seen of the one history (ORC: an `ExecutionSession` behind its session lock).
//!
//! A `Shared` is a turn round a session, and a `Pass` a seat of it. An event is a value (`Define`, `Ask`,
//! `Take` and their kin, in `calls`), which `Turn::perform` makes when the turn comes, and
//! `Turn::try_perform` makes or hands back at once; `front`, `split`, `join` and `meet` are those of the
//! turn. Contracts say what an event did by the clauses of `execution_session`, between the history that
//! the turn was taken at and the one that it was given at (`Turned`); what that makes of the pass is the
//! law `calls_are_shared` (`specs/SharedCalls`). What an event has to know of a unit that the pass holds
//! is said over the history that the pass has seen: what other seats do since leaves it true.
//!
//! The notifiers that an event tells are answered, to be fired after the turn was given.
//!
//! A session that is opened with posts has one for each instance. A pass that has seen an instance ready
//! may post its address (`post`), and any pass may read it without the turn (`ready_word`). What it is
//! told, if not 0, is the address of an instance that is ready in the history that the pass has then
//! seen, and stays so (`specs/ReadyWords`). Read `turn_lock` and `execution_session` first.
#![tactic(auto)]

mod calls;
mod home;
mod laws;
mod posts;
mod shared;
mod turns;

pub use calls::{
    Ask, Attach, Collect, CopyMemory, Define, Emit, Fail, Generate, Handed, Link, MakeDylib,
    MakeTracker, MoveTracker, Place, Remove, Resolve, SetOrder, Take,
};
pub use home::Home;
pub use laws::{calls_are_shared, ready_words_stand};
pub use posts::{POSTS, post, ready_word};
pub use shared::{Pass, Shared, close, open, open_posts};
pub use turns::{post_is_no_call, turn_is_a_call, turn_is_no_call, word_is_no_call};
