ghost use Rattle.std.specs.Prelude.{◌≡◌};
ghost use Rattle.jit_dylib.specs.declared.error.DefineError.TheVariants.{NoMemory};

use orc_ids::{InstId, NameId};
use std::alloc::{AllocError, AllocFailed};

/// Why nothing was defined.
#[derive(Drop)]
pub enum DefineError {
    /// This offered name is the first that has a definition already, this instance.
    Duplicate(NameId, InstId),
    NoMemory,
}

impl From<AllocError> for DefineError {
    ghost from_gives = { λ _ e. e ≡ NoMemory };

    fn from(_: AllocError) -> DefineError {
        DefineError::NoMemory
    }
}

impl<T: Drop> From<AllocFailed<T>> for DefineError {
    ghost from_gives = { λ _ e. e ≡ NoMemory };

    fn from(_: AllocFailed<T>) -> DefineError {
        DefineError::NoMemory
    }
}
