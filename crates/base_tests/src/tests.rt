//! A module for each crate that is tested.
mod lists;
mod names;
mod outside;
mod ranges;
mod responsible;
mod texts;
mod words;
