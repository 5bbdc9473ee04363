//! Numbers of the standard (System V gABI; `EM_RISCV`: RISC-V ELF psABI).

pub(crate) const ELF_MAGIC: u32 = 0x464c_457f;

pub(crate) const ELFCLASS64: u8 = 2;

pub(crate) const ELFDATA2LSB: u8 = 1;

pub(crate) const ET_REL: u16 = 1;

pub(crate) const EM_RISCV: u16 = 243;

pub(crate) const SHT_PROGBITS: u32 = 1;

pub(crate) const SHT_SYMTAB: u32 = 2;

pub(crate) const SHT_STRTAB: u32 = 3;

pub(crate) const SHT_RELA: u32 = 4;

pub(crate) const SHT_NOTE: u32 = 7;

pub(crate) const SHT_NOBITS: u32 = 8;

pub(crate) const SHT_REL: u32 = 9;

pub(crate) const SHT_INIT_ARRAY: u32 = 14;

pub(crate) const SHT_FINI_ARRAY: u32 = 15;

pub(crate) const SHT_PREINIT_ARRAY: u32 = 16;

pub(crate) const SHT_GROUP: u32 = 17;

/// The flags of a section, each by its bit's number.
pub(crate) const SHF_ALLOC: u32 = 1;

pub(crate) const SHF_TLS: u32 = 10;

pub(crate) const SHF_COMPRESSED: u32 = 11;

pub(crate) const SHN_UNDEF: u16 = 0;

pub(crate) const SHN_ABS: u16 = 0xfff1;

pub(crate) const SHN_COMMON: u16 = 0xfff2;

pub(crate) const SHN_XINDEX: u16 = 0xffff;

pub(crate) const STB_LOCAL: u8 = 0;

pub(crate) const STB_WEAK: u8 = 2;

/// The bytes of the file header, of an entry of the section table, and of a symbol or a relocation.
pub(crate) const HEADER_SIZE: usize = 64;

pub(crate) const SECTION_SIZE: usize = 64;

pub(crate) const ENTRY_SIZE: u64 = 24;

/// The longest name of a symbol, and the most bytes of a common symbol.
pub(crate) const LONGEST_NAME: u64 = 4096;

pub(crate) const LARGEST_COMMON: u64 = 1 << 24;
