ghost use Rattle.std.specs.Prelude.{◌≡◌};
ghost use Rattle.orc_names.specs.declared.error.NameError.TheVariants.{NoMemory};

use std::alloc::{AllocError, AllocFailed};
use thiserror::Error;

/// Why a text got no number.
#[derive(Clone, Copy, Debug, Error)]
pub enum NameError {
    /// The text has more than `NAME_LIMIT` bytes.
    #[error("the name has more than 4096 bytes")]
    TooLong,
    #[error("out of memory")]
    NoMemory,
}

impl From<AllocError> for NameError {
    ghost from_gives = { λ _ e. e ≡ NoMemory };

    fn from(_: AllocError) -> NameError {
        NameError::NoMemory
    }
}

impl<T: Drop> From<AllocFailed<T>> for NameError {
    ghost from_gives = { λ _ e. e ≡ NoMemory };

    fn from(_: AllocFailed<T>) -> NameError {
        NameError::NoMemory
    }
}
