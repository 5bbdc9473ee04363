//! The 65 instructions of RV64IM, and their words (RISC-V unprivileged manual, "RV32/64G Instruction
//! Set Listings").
//!
//! The table stands once in the code, as the macro `rows`, which `decode` and `encode` are made from,
//! and once in what contracts see, as the relation `Fits` of `specs/Rows.antt` between an instruction
//! and a word: a line for each row, in the same order. `decode` gives the one instruction that fits a
//! word, and is refused exactly where none does; `encode` gives the one word that fits an instruction.
//! `InRange` of `specs/Range.antt` says which instructions a word can hold. The immediates are the
//! definitions of `orc_words`, so that what a relocation writes is what `decode` reads. `decode_flat`
//! gives the same instruction with its parts side by side, for who does it many times; `insn_of` of
//! `specs/Flat.antt` says which instruction such parts are. Read `rv_hart` next for what the
//! instructions do.
#![tactic(auto)]

mod decoding;
mod encoding;
mod fields;
mod flat;
mod formats;
mod insn;
mod table;

pub use decoding::{decode, decode_flat};
pub use encoding::encode;
pub use flat::{FlatInsn, Kind};
pub use insn::{Illegal, Insn};
