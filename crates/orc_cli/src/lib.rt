//! The top call of `orc`: a command line, files, an output and a log go in, and one answer comes out.
//!
//! `orc run` reads the objects that the words name, links them in a session that a client and workers share,
//! runs the program from its entry, writes the run's output and then the session's journal and the end
//! line, and answers; its promise is the record `Answers` of `run_answers`. `orc session` runs the session of a
//! script, by `session_command`; its promise is `SessionAnswers`. `orc as` assembles a file, by
//! `as_command`; its promise is `AsAnswers`. `orc gen` runs the session of generated objects, by
//! `gen_command`; its promise is `GenAnswers`. All are generic over the outside.
//!
//! Read `command_line` for words, `object_files` for files, `linked_program` for the session of a run and
//! `exec_run` for runs; `orc` is the program.
#![tactic(auto)]

mod asking;
mod finding;
mod generating;
mod loading;
mod lost;
mod running;
mod top;
mod writing;

pub use execution_session::JOURNAL_LIMIT;
pub use notifiers::{Noted, Notes};
pub use top::{Ended, orc, orc_sized};
