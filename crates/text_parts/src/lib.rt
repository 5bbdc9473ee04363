//! The parts of texts, each put at the end of a buffer: words, decimal numbers, addresses and bytes in
//! lower-case hexadecimal, and the places of edges.
//!
//! Each contract says which bytes the buffer has gained where the call is answered with Ok. After an error,
//! which is always one of memory, the buffer may have gained a first part of them. `specs/Hexadecimal` and
//! `specs/Places` have the texts; decimal numbers are those of std. The work is linear in what is put.
//!
//! `journal_text`, `exec_run`, `result_text` and `answers` make their lines of these.
#![tactic(auto)]

mod hexadecimal;
mod numbers;
mod places;
mod words;

pub use hexadecimal::{put_at, put_hex_bytes};
pub use numbers::{put_decimal, put_numbered, put_pair};
pub use places::{put_edge, put_placed};
pub use words::put;
