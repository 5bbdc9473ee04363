//! A module for each crate that is tested.
mod given;
mod results;
