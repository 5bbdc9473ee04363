//! The answers of `orc`: each with its exit status and its end line, the last line of the log.
//!
//! `specs/Answers` has the status of each, `specs/EndLine` its line, and `specs/Written` what the sinks have
//! gained once an answer was written; `specs/Memory` says whether a session wanted memory, and `specs/Files`
//! what a file that isn't taken in answers. When each answer comes is said by `run_answers` for `orc run`, by
//! `session_command` for `orc session`, and by `as_command` for `orc as`.
#![tactic(auto)]

mod answer;
mod files;
mod memory;
mod texts;

pub use answer::Answer;
pub use files::file_answer;
pub use memory::wanted_memory;
pub use texts::end_line;
