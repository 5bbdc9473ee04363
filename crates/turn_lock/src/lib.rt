//! A turn that threads take one after the other, round one value with a history that grows by
//! entries. It stands on a table of `atomic_table`: a word that counts the entries, a word that
//! says who has the turn, and a slot where the value is while nobody has it. The event that makes
//! an entry is the fetch-and-add on the count, made while the turn is held and the value is out of
//! its slot.
//!
//! A `Call` is what is done with the value in one turn: it says when a seat may make it, and what
//! it does to the history, which gets one entry of that seat or none. `Turn::perform` waits for the
//! turn, makes the call, raises the count where it made an entry, and gives the turn.
//! `Turn::try_perform` hands the call back where the turn is taken. What both say is `Turned`
//! (`specs/Passes.antt`).
//!
//! Contracts see of a seat its `view`: the beginning of the history that it has seen, the entries
//! that are its own, and the numbers that it took in or may still give. Each function says what the
//! view then is, and by `Shows` what the rule of the table (`specs/Rule.antt`) tells of the
//! history. A seat has always seen all entries of its own, so what it may do by what it has seen it
//! may still do once it has the turn. `enter`, `step` and `leave` are the parts of a turn, for what
//! no `Call` can say: a `Held` must be spent by `leave`, and code that lets one go does not
//! compile.
//!
//! A turn may be opened with posts: further words of the table, each 0 until a seat fills it with
//! what the history shows for good (`Counted::posted`). `Turn::post` and `Turn::read_post` wait for
//! nobody, whoever has the turn. A seat that found a post filled has then seen a history that shows
//! what stands there, and from then on it finds that word again.
//!
//! No clause says that a call which waits returns: that a sleeper is woken, and that giving the
//! turn wakes one, the runs of `turn_soak` show, which would not end else. Nor does one say in
//! which order seats get the turn, or that a seat sees what another has posted. Read `counted`
//! first, then `call`, `view`, `specs/Views.antt`, `specs/Told.antt` and `specs/Passes.antt`.
#![tactic(auto)]

mod call;
mod counted;
mod held;
mod plays;
mod rule;
mod seat;
mod turn;
mod view;

pub use call::Call;
pub use counted::Counted;
pub use held::Held;
pub use rule::Rule;
pub use seat::{Busy, Seat};
pub use turn::Turn;
pub use view::View;
