//! Tests of `exec_run`: a linked program that writes a line, with just enough fuel and with one less,
//! and code that writes to its image and its stack.
//!
//! They stand in a crate of their own, so that they don't prove `exec_run` again. The program was
//! linked by GNU `ld`, and the other code assembled by GNU `as`.
#![tactic(auto)]

#[cfg(test)]
mod code_memory_tests;
#[cfg(test)]
mod exec_run_tests;
#[cfg(test)]
mod images;
#[cfg(test)]
mod play;
#[cfg(test)]
mod rv_insn_tests;
