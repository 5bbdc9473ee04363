//! The static linker, as a definition: the blocks that an entry needs of some objects that were laid out,
//! with the cells and stubs that their edges use, and all edges of these blocks applied by one map from
//! symbols to where they are (System V gABI, "Relocation"; RISC-V ELF psABI).
//!
//! `specs/Links` says what such a program is. Two laws, which are contracts of functions with empty bodies,
//! say that the image of a unit holds it wherever the unit was told the map's addresses, and that there is
//! such a program wherever the objects that its entry needs lie apart. Read `link_model` first.
#![tactic(auto)]

mod laws;

pub use laws::{image_is_linked, program_is_there};
