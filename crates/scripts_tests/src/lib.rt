//! What the reader of scripts gives for whole scripts: the ones that it reads, each refusal, and the
//! limits. Scripts and answers are written from the grammar.
#![tactic(auto)]

#[cfg(test)]
mod script_plan_tests;
#[cfg(test)]
mod script_text_tests;
#[cfg(test)]
mod session_script_tests;
