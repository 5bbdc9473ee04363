//! Runs of linked code: the code at an address is run on an image and a stack of its own,
//! one instruction for one fuel, until it exits, traps, is out of fuel or has written too much
//! (RISC-V ELF psABI, "Integer Register Convention"; the calls `write` and `exit` are Linux's).
//!
//! `specs/Run.antt` says what a run is: the relation `RunsTo` between a memory, where it starts, and
//! its end and output. It is a recursion on the fuel over single turns, each of them a step of
//! `rv_hart` and the call to the host of `specs/Host.antt` where the step asks for one. The contract
//! of `run` is that relation, and `runs_have_one_end` says that it is a function. `larger_memory`
//! says that a run which stays within what is mapped (`Stays` of `specs/Larger.antt`) has the same
//! end and output on every larger memory.
//!
//! A run begins at a cost that doesn't grow with the image. Then it costs what it touches: a range
//! of the image is copied when the run first writes to it, for which a place is listed for each
//! range up to it, and the stack's bytes are kept as far down as was written. Room for all of them
//! is reserved when the run starts, so that no store is refused for memory. The range of the last
//! access is looked at first, and any other is found by halves. An instruction is decoded once: it is
//! kept at a place that its address names, and done from there until a store touches its word
//! (`Decoded`). Code on the stack isn't kept, so that stores there look at no place. Read `rv_hart` for the step, and
//! `code_memory` for the image.
#![tactic(auto)]

mod access;
mod decoded;
mod find;
mod host;
mod laws;
mod machine;
mod memory;
mod number;
mod pieces;
mod ran;
mod ranges;
mod run_end;
mod runner;
mod stack;

pub use host::{HOME, OUTPUT_MAX, STACK_END, STACK_START};
pub use laws::{larger_memory, runs_have_one_end};
pub use ran::{Ran, RunEnd};
pub use run_end::put_run_end;
pub use runner::run;
