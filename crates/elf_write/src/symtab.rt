ghost use Rattle.std.specs.Prelude.{◌≡◌, ◌++◌, drop, length, IfOk, OnOk};
ghost use Rattle.std.specs.List.{filter};
ghost use Rattle.elf_write.specs.Tables as want;

use crate::numbers::{put_number, put_string, put_zeros, string_place};
use elf_read::{SymPlace, Symbol};
use std::alloc::{AllocError, Global};
use std::marker::Model;

const SHN_UNDEF: u64 = 0;

const SHN_ABS: u64 = 0xfff1;

const SHN_COMMON: u64 = 0xfff2;

const STB_LOCAL: u8 = 0;

/// The section number of an entry.
fn section_number(place: SymPlace) -> u64
    ensures { result ≡ want.section_number place }
{
    match place {
        SymPlace::Undef | SymPlace::Passed => SHN_UNDEF,
        SymPlace::Abs => SHN_ABS,
        SymPlace::Common => SHN_COMMON,
        SymPlace::In(section) => section as u64 + 1,
    }
}

/// An entry, whose name stands at a place of the string table.
fn put_symbol(out: &mut Vec<u8>, name: u64, symbol: &Symbol) -> Result<(), AllocError>
    ensures { OnOk result (out.new.items ≡ out.old.items ++ want.symbol_bytes name symbol.now) }
{
    put_number(out, 4, name)?;
    put_number(out, 1, symbol.bind as u64 * 16 + symbol.kind as u64)?;
    put_number(out, 1, symbol.vis as u64)?;
    put_number(out, 2, section_number(symbol.place))?;
    put_number(out, 8, symbol.value)?;
    put_number(out, 8, symbol.size)
}

/// A symbol table and its string table. Contracts see the record `Symtab`.
#[derive(Drop)]
pub(crate) struct SymtabWriter {
    entries: Vec<u8>,
    strings: Vec<u8>,
}

impl Model for SymtabWriter {
    ghost use Rattle.elf_write.specs.Tables.{Symtab};

    ghost Value = { Symtab };

    ghost view = { λ t. record { entries = t.entries.items; strings = t.strings.items } };
}

impl SymtabWriter {
    /// Entry 0 alone, which is all zeros.
    fn new(alloc: Global) -> Result<SymtabWriter, AllocError>
        ensures { IfOk result (λ t. t ≡ want.entry_zero) }
    {
        let mut entries = Vec::new(alloc);
        put_zeros(&mut entries, 24)?;
        let mut strings = Vec::new(alloc);
        strings.push(0)?;
        Ok(SymtabWriter { entries, strings })
    }

    pub fn entries(&self) -> &[u8]
        ensures { result.now ≡ self.now.entries }
    {
        self.entries.as_slice()
    }

    pub fn strings(&self) -> &[u8]
        ensures { result.now ≡ self.now.strings }
    {
        self.strings.as_slice()
    }

    fn put(&mut self, symbol: &Symbol) -> Result<(), AllocError>
        ensures { OnOk result (self.new ≡ want.with_symbol symbol.now self.old) }
    {
        let name = symbol.name.as_slice();
        let place = string_place(name, self.strings.as_slice());
        put_symbol(&mut self.entries, place, symbol)?;
        put_string(&mut self.strings, name)
    }

    fn put_all(&mut self, symbols: &[Symbol]) -> Result<(), AllocError>
        ensures { OnOk result (self.new ≡ want.with_symbols symbols.now self.old) }
    {
        for symbol in symbols {
            self.put(symbol)?;
        }
        Ok(())
    }
}

/// The symbols but for symbol 0.
fn after_first(symbols: &[Symbol]) -> &[Symbol]
    ensures { result.now ≡ drop 1 symbols.now }
{
    if symbols.is_empty() {
        symbols
    } else {
        &symbols[1..]
    }
}

/// The entries of all symbols, from symbol 0 on.
#[tactic(auto, unfolding(crate::specs::Tables::symtab_of))]
pub(crate) fn symtab_of(alloc: Global, symbols: &[Symbol]) -> Result<SymtabWriter, AllocError>
    ensures { IfOk result (λ t. t ≡ want.symtab_of symbols.now) }
{
    let mut table = SymtabWriter::new(alloc)?;
    table.put_all(after_first(symbols))?;
    Ok(table)
}

/// How many symbols are local.
pub(crate) fn local_count(symbols: &[Symbol]) -> usize
    ensures { result ≡ length (filter want.is_local symbols.now) }
{
    let mut count: usize = 0;
    for symbol in symbols {
        if symbol.bind == STB_LOCAL {
            count += 1;
        }
    }
    count
}
