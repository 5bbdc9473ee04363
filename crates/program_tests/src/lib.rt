//! Tests of `command_line`: the words of each command, what they ask for, and each refusal.
//!
//! They stand in a crate of their own, so that they don't prove `command_line` again. What is expected is the
//! table of the commands.
#![tactic(auto)]

#[cfg(test)]
mod command_line_tests;
#[cfg(test)]
mod object_files_tests;
