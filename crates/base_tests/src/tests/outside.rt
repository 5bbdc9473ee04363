//! Each form of the outside, and the adapters, by tables of calls and of what they answer. A table that
//! isn't answered as it says is told by the number of its first row that wasn't, from 0 on.
mod files;
mod notes;
mod real;
mod sinks;
mod sources;
mod whole;
