//! A hart of RV64IM: one instruction at a time, over 32 registers, a program counter and a memory
//! (RISC-V unprivileged manual, "RV64I Base Integer Instruction Set" and "M Extension for Integer
//! Multiplication and Division").
//!
//! `Hart::step` is the relation `IsStep` of `specs/Step.antt`: the alignment of the program counter,
//! the fetch, and then the row of `rv_insn`'s table that fits the word, with its effect `row_of`, a
//! line for each row. A word that no row fits traps. `specs/Arithmetic.antt` has the manual's
//! arithmetic. In the code an instruction has its parts side by side, and `Effect::of_insn` is the one
//! match over all rows: what is left once the registers are read, a value, a target, or an address
//! (`done` of `specs/Effects.antt` is the step that it makes). A loop may hold the program counter by
//! itself: `step_known` does an instruction that was decoded before, and `step_apart` looks for it; both
//! have `step`'s relation.
//!
//! Contracts see memory as a map from addresses to bytes (`specs/Map.antt`), which a
//! `Memory` defines, and a `Hart` as the record of its fields. Read `exec_run` next for runs and calls
//! to the host.
#![tactic(auto)]

mod arithmetic;
mod effect;
mod hart;
mod memory;
mod step;

pub use hart::Hart;
pub use memory::{Fetched, Memory};
pub use step::{Cause, Step, step_apart, step_known};
