ghost use Rattle.std.specs.Prelude.{◌≡◌, ◌<◌};
ghost use Rattle.elf_read.specs.Sections.{has_flag, is_allocated, is_placed_kind, is_kept, is_small_power, kind_refusal};
ghost use Rattle.elf_read.specs.Choice.{Agrees};

use crate::error::{ElfError, NotBuiltKind};
use crate::fields::SectionHeader;
use crate::gabi::{
    SHF_ALLOC, SHF_COMPRESSED, SHF_TLS, SHT_FINI_ARRAY, SHT_GROUP, SHT_INIT_ARRAY, SHT_NOBITS,
    SHT_NOTE, SHT_PREINIT_ARRAY, SHT_PROGBITS, SHT_REL,
};

/// Whether a number is a power of two up to 4,096.
#[tactic(auto, unfolding(crate::specs::Sections::is_small_power))]
pub(crate) fn is_power(n: u64) -> bool
    ensures { result ≡ is_small_power n }
{
    matches!(
        n,
        1 | 2 | 4 | 8 | 16 | 32 | 64 | 128 | 256 | 512 | 1024 | 2048 | 4096
    )
}

impl SectionHeader {
    fn has(&self, bit: u32) -> bool
        requires { bit < 64 }
        ensures { result ≡ has_flag bit self.now }
    {
        (self.flags >> bit) % 2 == 1
    }

    fn is_allocated(&self) -> bool
        ensures { result ≡ is_allocated self.now }
    {
        self.has(SHF_ALLOC)
    }

    fn has_placed_kind(&self) -> bool
        ensures { result ≡ is_placed_kind self.now.kind }
    {
        self.kind == SHT_PROGBITS
            || self.kind == SHT_NOTE
            || self.kind == SHT_NOBITS
            || self.kind == SHT_INIT_ARRAY
            || self.kind == SHT_FINI_ARRAY
            || self.kind == SHT_PREINIT_ARRAY
    }

    /// Whether the object keeps the section: it is allocated, and of a type that is placed.
    #[tactic(auto, unfolding(crate::specs::Sections::is_kept))]
    pub fn is_kept(&self) -> bool
        ensures { result ≡ is_kept self.now }
    {
        self.is_allocated() && self.has_placed_kind()
    }

    /// What the section's type and flags alone rule out.
    #[tactic(auto, unfolding(crate::specs::Sections::kind_refusal))]
    pub fn check_kind(&self) -> Result<(), ElfError>
        ensures { Agrees result (kind_refusal self.now) }
    {
        if self.kind == SHT_GROUP {
            return Err(ElfError::NotBuilt(NotBuiltKind::Group));
        }
        if self.kind == SHT_REL {
            return Err(ElfError::NotBuilt(NotBuiltKind::Rel));
        }
        if !self.is_allocated() {
            return Ok(());
        }
        if self.has(SHF_TLS) {
            return Err(ElfError::NotBuilt(NotBuiltKind::Tls));
        }
        if self.has(SHF_COMPRESSED) {
            return Err(ElfError::NotBuilt(NotBuiltKind::Compressed));
        }
        if !self.has_placed_kind() {
            return Err(ElfError::NotBuilt(NotBuiltKind::SectionKind));
        }
        Ok(())
    }
}
