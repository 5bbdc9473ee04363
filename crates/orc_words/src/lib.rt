//! Words and the numbers in bytes: the parts of a 32-bit word, two's complement at any width,
//! little-endian numbers, and the immediates of the five instruction formats of RISC-V.
//!
//! It states "Base Instruction Formats" and "Immediate Encoding Variants" of the RISC-V
//! unprivileged manual, and the little-endian data of ELF. Contracts see a word as a number, its
//! parts by `bits_at` and `with_bits`, and bytes as a function from place to byte. No call takes
//! memory, and none is refused. `proofs/Writers` has the laws of the formats: what was written is
//! read back, and the other bits stay. Read `link_model` next for where relocations write.
#![tactic(auto)]

mod field;
mod immediate;
mod number;
mod signed;

pub use field::Field;
pub use immediate::{
    b_immediate, i_immediate, j_immediate, s_immediate, u_immediate, with_b, with_i, with_j,
    with_s, with_u,
};
pub use number::{get_le, put_le};
pub use signed::{fits_signed, sign_extend};
