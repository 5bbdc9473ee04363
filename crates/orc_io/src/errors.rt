ghost use Rattle.std.specs.Prelude.{◌≡◌};
ghost use Rattle.orc_io.specs.Causes.{is_fault};
ghost use Rattle.orc_io.specs.declared.errors.FileError.TheVariants as file_error;
ghost use Rattle.orc_io.specs.declared.errors.ReadError.TheVariants as read_error;

use orc_ids::Bytes;
use std::alloc::{AllocError, AllocFailed};

/// A read or a write that the outside refused; the count of faults of the thing that was called rose.
#[derive(Clone, Copy, PartialEq, Eq)]
pub struct Failed;

/// Why a file was not read.
#[derive(Clone, Copy, PartialEq, Eq)]
pub enum FileError {
    /// The file has more than `FILE_LIMIT` bytes.
    TooLong,
    /// There is no such file, or reading it failed; the count of faults rose.
    Failed,
    NoMemory,
}

/// Why a source was not read whole.
#[derive(Drop)]
pub enum ReadError {
    /// The source has more bytes than the limit; these are its first, one more than the limit.
    TooLong(Bytes),
    /// A read failed; the count of faults rose.
    Failed,
    NoMemory,
}

impl From<AllocError> for FileError {
    ghost from_gives = { λ _ e. e ≡ file_error.NoMemory };

    fn from(_: AllocError) -> FileError {
        FileError::NoMemory
    }
}

impl<T: Drop> From<AllocFailed<T>> for FileError {
    ghost from_gives = { λ _ e. e ≡ file_error.NoMemory };

    fn from(_: AllocFailed<T>) -> FileError {
        FileError::NoMemory
    }
}

impl From<Failed> for FileError {
    ghost from_gives = { λ _ e. e ≡ file_error.Failed };

    fn from(_: Failed) -> FileError {
        FileError::Failed
    }
}

impl From<AllocError> for ReadError {
    ghost from_gives = { λ _ e. e ≡ read_error.NoMemory };

    fn from(_: AllocError) -> ReadError {
        ReadError::NoMemory
    }
}

impl From<Failed> for ReadError {
    ghost from_gives = { λ _ e. e ≡ read_error.Failed };

    fn from(_: Failed) -> ReadError {
        ReadError::Failed
    }
}

/// Whether the read of a file was a fault.
pub(crate) fn is_fault(answer: &Result<Bytes, FileError>) -> bool
    ensures { result ≡ is_fault answer.now }
{
    matches!(answer, Err(FileError::Failed))
}
