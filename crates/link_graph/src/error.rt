ghost use Rattle.std.specs.Prelude.{◌≡◌};
ghost use Rattle.link_graph.specs.declared.error.GraphError.TheVariants.{NoMemory};

use orc_ids::Place;
use std::alloc::{AllocError, AllocFailed};
use thiserror::Error;

/// Why an object has no graph: the first check that fails. A place is a section of the object, by
/// its number among the kept ones, and an offset in it.
#[derive(Clone, Copy, Debug, PartialEq, Eq, Error)]
pub enum GraphError {
    /// A relocation of a type that isn't one of those that are linked.
    #[error("relocation type {0} is not supported")]
    UnknownReloc(u32, Place),
    /// A relocation of bytes outside its section or of deleted ones, of a section without bytes, or by
    /// a symbol of a section that is passed over.
    #[error("a relocation lies outside what is linked")]
    RelocOutside(Place),
    /// The symbol of this number is thread-local or an indirect function.
    #[error("symbol {0} is thread-local or an indirect function")]
    TlsOrIfunc(u32),
    /// A PCREL_LO12 whose label has no upper edge.
    #[error("a low part has no upper part")]
    BadPair(Place),
    /// An ALIGN whose padding isn't in its section, starts before that of the ALIGN before it ends, is
    /// for a boundary above 4,096, or is shorter than its place needs.
    #[error("an alignment isn't met")]
    NeedsAlign(Place),
    /// More blocks, symbols, edges or bytes than a unit may have.
    #[error("the object is too large")]
    TooMany,
    #[error("out of memory")]
    NoMemory,
}

impl From<AllocError> for GraphError {
    ghost from_gives = { λ _ e. e ≡ NoMemory };

    fn from(_: AllocError) -> GraphError {
        GraphError::NoMemory
    }
}

impl<T: Drop> From<AllocFailed<T>> for GraphError {
    ghost from_gives = { λ _ e. e ≡ NoMemory };

    fn from(_: AllocFailed<T>) -> GraphError {
        GraphError::NoMemory
    }
}
