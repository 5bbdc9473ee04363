//! The command line of `orc`: which words ask for what.
//!
//! `orc run FILE.. [--entry NAME] [--fuel N] [--workers N]` links the objects in the files, and runs them
//! from a symbol for a number of instructions. `orc session [--workers N]` makes the calls of a script on
//! one session. `orc as FILE` assembles a text, and `orc gen N` makes the calls of a session of N generated
//! objects. `read_command` reads the words; its contract says what they ask for by the definitions of
//! `specs/Words`, and that no answer passes the limits of this crate. The words of each command are matched by
//! clap, whose definition of a match is `Rattle.clap.specs`.
#![tactic(auto)]

mod command;
mod error;
mod limits;
mod matching;
mod name;
mod number;
mod syntax;

pub use command::{AssemblyWords, Command, GenerationWords, RunWords, SessionWords, read_command};
pub use error::{CommandError, UsageKind};
pub use limits::{FILES_LIMIT, FUEL_LIMIT, NAME_LIMIT, OBJECTS_LIMIT, WORKER_LIMIT};
