ghost use Rattle.std.specs.Prelude.{◌≡◌};
ghost use Rattle.object_files.specs.declared.error.LoadError.TheVariants.{NoMemory};

use elf_read::ElfError;
use link_graph::GraphError;
use std::alloc::{AllocError, AllocFailed};
use thiserror::Error;

/// Why an object is refused.
#[derive(Clone, Copy, Debug)]
pub enum ObjectWhy {
    /// Its bytes are no object that can be read.
    Elf(ElfError),
    /// It has no link graph.
    Graph(GraphError),
}

/// Why files are not taken in. A file is numbered by its place among the distinct names, from 0.
#[derive(Clone, Copy, Debug, Error)]
pub enum LoadError {
    /// Reading the file failed, or there is no such file; the count of faults rose.
    #[error("file {0} is missing, or reading it failed")]
    Fault(u32),
    /// The file has more than 16 MiB, or those up to it have more than 256 MiB.
    #[error("file {0} is too long")]
    TooLong(u32),
    /// The file is no object that can be linked.
    #[error("file {0} is refused")]
    Refused(u32, ObjectWhy),
    #[error("out of memory")]
    NoMemory,
}

impl From<AllocError> for LoadError {
    ghost from_gives = { λ _ e. e ≡ NoMemory };

    fn from(_: AllocError) -> LoadError {
        LoadError::NoMemory
    }
}

impl<T: Drop> From<AllocFailed<T>> for LoadError {
    ghost from_gives = { λ _ e. e ≡ NoMemory };

    fn from(_: AllocFailed<T>) -> LoadError {
        LoadError::NoMemory
    }
}
