ghost use Rattle.std.specs.Prelude.{◌≡◌};
ghost use Rattle.rv_asm.specs.declared.error.AsmError.TheVariants.{NoMemory};

use asm_lines::AsmWhy;
use std::alloc::{AllocError, AllocFailed};
use thiserror::Error;

/// Why a text is no object.
#[derive(Clone, Copy, Debug, PartialEq, Eq, Error)]
pub enum AsmError {
    /// The first line that is refused, by its number, which counts from 1, and the reason.
    #[error("line {0} is refused: {1:?}")]
    BadLine(u32, AsmWhy),
    #[error("out of memory")]
    NoMemory,
}

impl From<AllocError> for AsmError {
    ghost from_gives = { λ _ e. e ≡ NoMemory };

    fn from(_: AllocError) -> AsmError {
        AsmError::NoMemory
    }
}

impl<T: Drop> From<AllocFailed<T>> for AsmError {
    ghost from_gives = { λ _ e. e ≡ NoMemory };

    fn from(_: AllocFailed<T>) -> AsmError {
        AsmError::NoMemory
    }
}
