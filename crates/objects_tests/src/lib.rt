//! Tests of `elf_read`: the object that an assembler makes, and what is answered to it with bytes changed.
//!
//! They stand in a crate of their own, so that they don't prove `elf_read` again.
#![tactic(auto)]

#[cfg(test)]
mod elf_read_tests;
#[cfg(test)]
mod elf_write_tests;
