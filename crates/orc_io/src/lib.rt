//! The outside as the linker meets it: a source that is read, files that are read whole by name, a
//! sink that is written, a gate that a worker passes, and a notifier that is told how a lookup ended.
//!
//! Each is a trait, so that everything above is proved once for every outside. A source, a set of
//! files and a sink mean the bytes that they have left or hold, where they tell them, and a count of
//! their faults. No count ever falls, and a call answers `Failed` only where its count rose, or
//! stands at the end of its type: code over a bound can't raise the count, so it can't make faults up.
//!
//! The forms in memory tell their bytes: `Mem` forms fail at the calls that they are made with, and
//! `Sure` forms never fail. The adapters over standard input, the current folder and the standard
//! streams tell nothing of content, since no contract can see what a file holds. The loops
//! `read_source` and `write_all` carry a whole text over any of them. `orc_cli` reads them next.
#![tactic(auto)]

mod errors;
mod files;
mod limits;
mod loops;
mod memory;
mod notify;
mod reads;
mod real;
mod sink;
mod source;

pub use errors::{Failed, FileError, ReadError};
pub use files::Files;
pub use limits::{FILE_LIMIT, SCRIPT_LIMIT};
pub use loops::{read_expected, read_source, write_all};
pub use memory::{FaultPlan, MemFiles, MemSink, MemSource, SureFiles, SureSink, SureSource};
pub use notify::{Gate, Note, Notify, OpenGate};
pub use reads::Reads;
pub use real::{FolderFiles, StdSink, StdSource};
pub use sink::Sink;
pub use source::Source;
