ghost use Rattle.std.specs.Prelude.{◌≡◌, []};

use shared_bytes::SharedBytes;
use std::alloc::Global;
use std::marker::Model;

/// A relocation of a kept section (`Elf64_Rela`): `at` is the offset in that section, `kind` the
/// type of the RISC-V ELF psABI, and `symbol` a number in the object's list of symbols.
#[derive(Clone, Copy, PartialEq, Eq)]
pub struct Reloc {
    pub at: u64,
    pub kind: u32,
    pub symbol: u32,
    pub addend: i64,
}

/// The relocations of one section, in the order of its table. Contracts see the list.
#[derive(Drop)]
pub struct Relocs {
    items: Vec<Reloc>,
}

impl Model for Relocs {
    ghost use Rattle.std.specs.Prelude.{List};
    ghost use Rattle.elf_read.specs.declared.object.Reloc.{Reloc};

    ghost Value = { List Reloc };

    ghost view = { λ r. r.items.items };
}

impl Relocs {
    /// No relocations; takes no memory.
    pub fn new(alloc: Global) -> Relocs
        ensures { result ≡ [] }
    {
        Relocs {
            items: Vec::new(alloc),
        }
    }

    /// The relocations of a `Vec`; takes no memory.
    pub fn from_vec(items: Vec<Reloc>) -> Relocs
        ensures { result ≡ items.items }
    {
        Relocs { items }
    }

    pub fn as_slice(&self) -> &[Reloc]
        ensures { result.now ≡ self.now }
    {
        self.items.as_slice()
    }
}

/// A section that is placed in memory (`Elf64_Shdr`). `kind` and `flags` are `sh_type` and
/// `sh_flags`; `align` is at least 1; `bytes` is empty for `SHT_NOBITS`, whose `size` zeros are not
/// in the file, and else has `size` bytes.
#[derive(Drop)]
pub struct Section {
    pub name: SharedBytes,
    pub kind: u32,
    pub flags: u64,
    pub align: u64,
    pub size: u64,
    pub bytes: SharedBytes,
    pub relocs: Relocs,
}

/// The kept sections of an object, in the order of its table. Contracts see the list.
#[derive(Drop)]
pub struct Sections {
    items: Vec<Section>,
}

impl Model for Sections {
    ghost use Rattle.std.specs.Prelude.{List};
    ghost use Rattle.elf_read.specs.declared.object.Section.{Section};

    ghost Value = { List Section };

    ghost view = { λ s. s.items.items };
}

impl Sections {
    /// No sections; takes no memory.
    pub fn new(alloc: Global) -> Sections
        ensures { result ≡ [] }
    {
        Sections {
            items: Vec::new(alloc),
        }
    }

    /// The sections of a `Vec`; takes no memory.
    pub fn from_vec(items: Vec<Section>) -> Sections
        ensures { result ≡ items.items }
    {
        Sections { items }
    }

    pub fn as_slice(&self) -> &[Section]
        ensures { result.now ≡ self.now }
    {
        self.items.as_slice()
    }
}

/// Where a symbol lies (`st_shndx`).
#[derive(Clone, Copy, PartialEq, Eq)]
pub enum SymPlace {
    /// Defined by another object.
    Undef,
    /// The value is the address itself.
    Abs,
    /// Memory that is still to be given; the value is its alignment.
    Common,
    /// In the kept section of this number, counted from 0; the value is the offset in it.
    In(u32),
    /// In a section that is passed over; such a symbol is not offered.
    Passed,
}

/// An entry of the symbol table (`Elf64_Sym`). `bind` and `kind` are the two halves of `st_info`,
/// and `vis` is the visibility of `st_other`.
#[derive(Drop)]
pub struct Symbol {
    pub name: SharedBytes,
    pub bind: u8,
    pub kind: u8,
    pub vis: u8,
    pub place: SymPlace,
    pub value: u64,
    pub size: u64,
}

/// The symbols of an object, from symbol 0 on. Contracts see the list.
#[derive(Drop)]
pub struct Symbols {
    items: Vec<Symbol>,
}

impl Model for Symbols {
    ghost use Rattle.std.specs.Prelude.{List};
    ghost use Rattle.elf_read.specs.declared.object.Symbol.{Symbol};

    ghost Value = { List Symbol };

    ghost view = { λ s. s.items.items };
}

impl Symbols {
    /// No symbols; takes no memory.
    pub fn new(alloc: Global) -> Symbols
        ensures { result ≡ [] }
    {
        Symbols {
            items: Vec::new(alloc),
        }
    }

    /// The symbols of a `Vec`; takes no memory.
    pub fn from_vec(items: Vec<Symbol>) -> Symbols
        ensures { result ≡ items.items }
    {
        Symbols { items }
    }

    pub fn as_slice(&self) -> &[Symbol]
        ensures { result.now ≡ self.now }
    {
        self.items.as_slice()
    }
}

/// A relocatable object: what is placed, and what it names.
#[derive(Drop)]
pub struct ElfObject {
    pub sections: Sections,
    pub symbols: Symbols,
}
