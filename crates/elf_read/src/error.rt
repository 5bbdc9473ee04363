ghost use Rattle.std.specs.Prelude.{◌≡◌};
ghost use Rattle.elf_read.specs.declared.error.ElfError.TheVariants.{NoMemory};

use std::alloc::{AllocError, AllocFailed};
use thiserror::Error;

/// Why bytes are not an object of this profile: the first check that fails.
///
/// A section or symbol is named by its number in the object's table.
#[derive(Clone, Copy, Debug, PartialEq, Eq, Error)]
pub enum ElfError {
    /// A range passes the end of the input. The place is the range's start, or the input's
    /// length where that is greater.
    #[error("the input ends before the range at {0}")]
    Short(u64),
    /// `EI_MAG0` to `EI_MAG3` (System V gABI, "ELF Identification").
    #[error("the magic number is not that of ELF")]
    BadMagic,
    #[error("not of class ELFCLASS64")]
    NotClass64,
    #[error("not of data encoding ELFDATA2LSB")]
    NotLittle,
    #[error("not of type ET_REL")]
    NotRelocatable,
    #[error("not for the machine EM_RISCV")]
    NotRiscv,
    /// The `e_flags`, which in this profile are 0: LP64, no compressed code, soft float.
    #[error("e_flags {0:#x} are not supported")]
    BadFlags(u32),
    #[error("section {0} is malformed")]
    BadTable(u32),
    #[error("symbol {0} is malformed")]
    BadSymbol(u32),
    #[error("section {0} refers to what is not there")]
    BadLink(u32),
    #[error("section {0} meets a range that another part of the file has")]
    Overlap(u32),
    #[error("{0:?} is not built")]
    NotBuilt(NotBuiltKind),
    #[error("out of memory")]
    NoMemory,
}

/// What an object may have by the standard, and this reader refuses by its name.
#[derive(Clone, Copy, Debug, PartialEq, Eq)]
pub enum NotBuiltKind {
    /// A section group (`SHT_GROUP`).
    Group,
    /// Relocations without addends (`SHT_REL`).
    Rel,
    /// An allocated section for thread-local storage (`SHF_TLS`).
    Tls,
    /// An allocated section that is compressed (`SHF_COMPRESSED`).
    Compressed,
    /// An allocated section of another type than those that are placed.
    SectionKind,
    /// A section number that is kept elsewhere (`SHN_XINDEX`).
    Xindex,
    /// A symbol's binding other than local, global and weak.
    Bind,
}

impl ElfError {
    ghost use Rattle.elf_read.specs.Errors.{error_number};

    /// The number that the end line of a run prints: 1 for `Short` to 13 for `NoMemory`.
    pub fn number(&self) -> u32
        ensures { result ≡ error_number self.now }
    {
        match self {
            ElfError::Short(_) => 1,
            ElfError::BadMagic => 2,
            ElfError::NotClass64 => 3,
            ElfError::NotLittle => 4,
            ElfError::NotRelocatable => 5,
            ElfError::NotRiscv => 6,
            ElfError::BadFlags(_) => 7,
            ElfError::BadTable(_) => 8,
            ElfError::BadSymbol(_) => 9,
            ElfError::BadLink(_) => 10,
            ElfError::Overlap(_) => 11,
            ElfError::NotBuilt(_) => 12,
            ElfError::NoMemory => 13,
        }
    }
}

impl From<AllocError> for ElfError {
    ghost from_gives = { λ _ e. e ≡ NoMemory };

    fn from(_e: AllocError) -> ElfError {
        ElfError::NoMemory
    }
}

impl<T: Drop> From<AllocFailed<T>> for ElfError {
    ghost from_gives = { λ _ e. e ≡ NoMemory };

    fn from(_e: AllocFailed<T>) -> ElfError {
        ElfError::NoMemory
    }
}
