ghost use Rattle.std.specs.Prelude.{◌≡◌, ◌<◌, ◌+◌, ◌++◌, All, length, map, IfOk, OnOk};
ghost use Rattle.elf_read.specs.Symbols.{symbol_zero};
ghost use Rattle.rv_asm.specs.Symbols as want;

use crate::order::{SymbolOrder, is_local_mark, marks_of};
use asm_state::{Definition, Marks, SymbolBook};
use elf_read::{SymPlace, Symbol, Symbols};
use shared_bytes::SharedBytes;
use std::alloc::{AllocError, Global};

const STB_LOCAL: u8 = 0;

const STB_GLOBAL: u8 = 1;

const STB_WEAK: u8 = 2;

const STT_NOTYPE: u8 = 0;

const STT_OBJECT: u8 = 1;

const STV_DEFAULT: u8 = 0;

const STV_HIDDEN: u8 = 2;

fn bind_of(marks: &Marks) -> u8
    ensures { result ≡ want.bind_of marks.now }
{
    if marks.weak {
        STB_WEAK
    } else if is_local_mark(marks) {
        STB_LOCAL
    } else {
        STB_GLOBAL
    }
}

fn kind_of(definition: Definition) -> u8
    ensures { result ≡ want.kind_of definition }
{
    match definition {
        Definition::Common { .. } => STT_OBJECT,
        Definition::Nowhere | Definition::Label { .. } => STT_NOTYPE,
    }
}

fn vis_of(marks: &Marks) -> u8
    ensures { result ≡ want.vis_of marks.now }
{
    if marks.hidden {
        STV_HIDDEN
    } else {
        STV_DEFAULT
    }
}

fn place_of(definition: Definition) -> SymPlace
    ensures { result ≡ want.place_of definition }
{
    match definition {
        Definition::Nowhere => SymPlace::Undef,
        Definition::Label { section, .. } => SymPlace::In(section),
        Definition::Common { .. } => SymPlace::Common,
    }
}

fn value_of(definition: Definition) -> u64
    ensures { result ≡ want.value_of definition }
{
    match definition {
        Definition::Nowhere => 0,
        Definition::Label { offset, .. } => offset,
        Definition::Common { align, .. } => align,
    }
}

fn size_of(definition: Definition) -> u64
    ensures { result ≡ want.size_of definition }
{
    match definition {
        Definition::Common { size, .. } => size,
        Definition::Nowhere | Definition::Label { .. } => 0,
    }
}

/// The entry of a symbol that the text says this of.
fn entry_of(alloc: Global, name: &[u8], marks: &Marks) -> Result<Symbol, AllocError>
    ensures { IfOk result (λ s. s ≡ want.entry_of name.now marks.now) }
{
    Ok(Symbol {
        name: SharedBytes::copy_of(alloc, name)?,
        bind: bind_of(marks),
        kind: kind_of(marks.definition),
        vis: vis_of(marks),
        place: place_of(marks.definition),
        value: value_of(marks.definition),
        size: size_of(marks.definition),
    })
}

#[tactic(auto, unfolding(crate::specs::Symbols::symbol_of))]
fn symbol_of(alloc: Global, symbols: &SymbolBook, number: u32) -> Result<Symbol, AllocError>
    requires { number < length symbols.now.names }
    ensures { IfOk result (λ s. s ≡ want.symbol_of symbols.now number) }
{
    entry_of(
        alloc,
        symbols.name(number as usize),
        &marks_of(symbols, number),
    )
}

/// Symbol 0 is the empty, absolute 0.
fn zero_symbol() -> Symbol
    ensures { result ≡ symbol_zero }
{
    Symbol {
        name: SharedBytes::empty(),
        bind: 0,
        kind: 0,
        vis: 0,
        place: SymPlace::Abs,
        value: 0,
        size: 0,
    }
}

/// The symbol table.
#[tactic(auto, using(crate::proofs::Typed::counts), unfolding(crate::specs::Symbols::symbol_table))]
pub(crate) fn symbol_table(
    alloc: Global,
    symbols: &SymbolBook,
    order: &SymbolOrder,
) -> Result<Symbols, AllocError>
    requires order { order.now ≡ want.order symbols.now }
    requires inside { All (λ n. n < length symbols.now.names) order.now }
    ensures exact { IfOk result (λ s. s ≡ want.symbol_table symbols.now) }
    ensures count { IfOk result (λ s. length s ≡ 1 + length order.now) }
{
    let mut items = Vec::with_capacity(alloc, 1)?;
    items.push(zero_symbol())?;
    push_symbols(alloc, symbols, order.numbers(), &mut items)?;
    Ok(Symbols::from_vec(items))
}

fn push_symbols(
    alloc: Global,
    symbols: &SymbolBook,
    numbers: &[u32],
    items: &mut Vec<Symbol>,
) -> Result<(), AllocError>
    requires { All (λ n. n < length symbols.now.names) numbers.now }
    ensures { OnOk result (items.new.items ≡ items.old.items ++ map (want.symbol_of symbols.now) numbers.now) }
{
    for number in numbers {
        items.push(symbol_of(alloc, symbols, *number)?)?;
    }
    Ok(())
}
