//! Tests of `asm_lines`: the words of instructions, and what directives and bad lines say.
//!
//! They stand in a crate of their own, so that they don't prove `asm_lines` again. Words are those that GNU
//! as makes of the same lines.
#![tactic(auto)]

#[cfg(test)]
mod asm_lines_tests;
#[cfg(test)]
mod asm_text_tests;
#[cfg(test)]
mod refusals;
#[cfg(test)]
mod sources;
