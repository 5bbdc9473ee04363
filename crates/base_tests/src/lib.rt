//! Tests of the lowest crates: the lists of `orc_ids`, the words of `orc_words`, the ranges of
//! `shared_bytes`, the parts of `text_parts`, the forms, loops and adapters of `orc_io`, the numbers of
//! `orc_names`, and what `responsibility` says of its unit.
//!
//! They stand in a crate of their own, so that they don't prove these crates again. What is expected was
//! written by hand; the words are those of an assembler of the field.
#![tactic(auto)]

#[cfg(test)]
mod tests;
