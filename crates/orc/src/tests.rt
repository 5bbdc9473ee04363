//! Tests of the program: calls of `orc` over an outside in memory, with the output, the log and the status of each.
//!
//! They stand in the crate of the program, and so need no library of their own. A test is a call, or a table of calls,
//! that `playing` makes: `calls` says what one is made of and comes to, `contents` has the files, `expected` the texts
//! that are looked for, and `outside` the devices. `ends` has the status that the program ends with. `run`, `session`, `assembly` and `generation` have the calls of a
//! command each, and `gate` two sessions whose jobs wait for each other.
//!
//! The objects are those that other assemblers make, or are assembled here. What programs and sessions write was
//! worked out by hand, from the rules of the session, of linking and of the texts, or is what an emulator writes.
mod assembly;
mod calls;
mod contents;
mod ends;
mod expected;
mod gate;
mod generation;
mod outside;
mod playing;
mod run;
mod session;
mod texts;
