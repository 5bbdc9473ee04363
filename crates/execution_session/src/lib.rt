//! A session: every event is one step of the definitions, and is written into the journal (ORC:
//! `ExecutionSession`).
//!
//! Contracts see a session as a `Log`: the entries of its journal, and which query has a notifier. All else
//! about it follows from the journal by the definitions of `session_model`. Each event ensures `Performs`:
//! the reply is a right one after the journal so far and the journal has gained just that entry, or nothing
//! has changed; and, where it may settle queries, `AreFires`: just the queries that settle at this entry are
//! told their ends, in rising number. `session_steps` defines both, and what a session is from one call to
//! the next (`Rests`).
//!
//! An event is a method of `Session`, which looks for a place in the journal, takes the event's step
//! (`session_steps`), and enters it. `enter` is one for all events (`entering`): it writes the entry and
//! settles.
#![tactic(auto)]

mod answering;
mod attachments;
mod collecting;
mod definitions;
mod dylibs;
mod emitting;
mod entering;
mod failing;
mod holding;
mod imaging;
mod jobs;
mod lifetime;
mod linking;
mod lookups;
mod places;
mod placing;
mod removal;
mod resolving;
mod session;
mod sharing;
mod trackers;

pub use holding::{Finished, Finishes, NOTHING, emit_taken, place_taken};
pub use imaging::Imaged;
pub use jobs::Taken;
pub use session::{Asked, JOURNAL_LIMIT, Session, Told};
pub use session_steps::{Flags, Offered, TakenUnit};
