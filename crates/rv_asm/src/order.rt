ghost use Rattle.std.specs.Prelude.{◌≡◌, ◌<◌, ◌+◌, ◌-◌, ◌++◌, ◌^◌, length, slice_index, IfOk, OnOk, All, ℕ};
ghost use Rattle.std.specs.List.{filter};
ghost use Rattle.asm_state.specs.Symbols.{marks_at};
ghost use Rattle.rv_asm.specs.Symbols as want;

use asm_state::{Definition, Marks, SymbolBook};
use std::alloc::{AllocError, Global};
use std::marker::Model;

/// The symbols by their numbers, in the order of the entries from 1 on, and the entry of each. Contracts
/// see the list of numbers.
#[derive(Drop)]
pub(crate) struct SymbolOrder {
    numbers: Vec<u32>,
    entries: Vec<u32>,
}

impl Model for SymbolOrder {
    ghost use Rattle.std.specs.Prelude.{◌≡◌, List, ℕ, slice_index};
    ghost use Rattle.rv_asm.specs.Symbols.{place_from};

    ghost Value = { List ℕ };

    ghost view = { λ o. o.numbers.items };

    ghost invariant = { λ o. (n : ℕ) → slice_index o.entries.items n ≡ place_from 1 n o.numbers.items };
}

/// What is said of a symbol by its mention, which stands for what isn't there.
const MENTIONED: Marks = Marks {
    definition: Definition::Nowhere,
    global: false,
    weak: false,
    hidden: false,
};

/// What the text says of the symbol of a number.
pub(crate) fn marks_of(symbols: &SymbolBook, number: u32) -> Marks
    ensures { result ≡ marks_at number symbols.now }
{
    let marks = symbols.marks();
    if (number as usize) < marks.len() {
        marks[number as usize]
    } else {
        MENTIONED
    }
}

fn is_label(definition: Definition) -> bool
    ensures { result ≡ want.is_label definition }
{
    match definition {
        Definition::Label { .. } => true,
        Definition::Nowhere | Definition::Common { .. } => false,
    }
}

/// Whether a symbol is a label that other objects don't see.
pub(crate) fn is_local_mark(marks: &Marks) -> bool
    ensures { result ≡ want.is_local_mark marks.now }
{
    is_label(marks.definition) && !(marks.global || marks.weak)
}

#[tactic(auto, unfolding(crate::specs::Symbols::is_local))]
fn is_local(symbols: &SymbolBook, number: u32) -> bool
    ensures { result ≡ want.is_local symbols.now number }
{
    is_local_mark(&marks_of(symbols, number))
}

/// The local labels, in order of definition.
fn locals(alloc: Global, symbols: &SymbolBook, labels: &[u32]) -> Result<Vec<u32>, AllocError>
    ensures { IfOk result (λ v. v.items ≡ filter (want.is_local symbols.now) labels.now) }
{
    let mut numbers = Vec::new(alloc);
    for number in labels {
        if is_local(symbols, *number) {
            numbers.push(*number)?;
        }
    }
    Ok(numbers)
}

/// Puts a symbol at the end, unless it is local.
fn push_other(symbols: &SymbolBook, number: u32, numbers: &mut Vec<u32>) -> Result<(), AllocError>
    ensures { OnOk result (numbers.new.items ≡ numbers.old.items ++ want.other_at symbols.now number) }
{
    if !is_local(symbols, number) {
        numbers.push(number)?;
    }
    Ok(())
}

/// Puts the other symbols after them, in order of first mention.
fn push_others(symbols: &SymbolBook, numbers: &mut Vec<u32>) -> Result<(), AllocError>
    ensures { OnOk result (numbers.new.items ≡ numbers.old.items ++ want.others_below symbols.now (length symbols.now.names)) }
{
    for number in 0..symbols.len() {
        push_other(symbols, number as u32, numbers)?;
    }
    Ok(())
}

/// Notes the entry of a number that has none yet.
fn note_entry(entries: &mut [u32], number: u32, entry: u32)
    requires { number < length entries.old }
    ensures len { length entries.new ≡ length entries.old }
    ensures noted { (n : ℕ) → slice_index entries.new n ≡ want.noted number entry (slice_index entries.old) n }
{
    if entries[number as usize] == 0 {
        entries[number as usize] = entry;
    }
}

/// The place of each number in a list, counted from 1, and 0 of those that aren't there.
fn entries_of(alloc: Global, numbers: &[u32], count: usize) -> Result<Vec<u32>, AllocError>
    requires { All (λ n. n < count) numbers.now }
    ensures { IfOk result (λ v. (n : ℕ) → slice_index v.items n ≡ want.place_from 1 n numbers.now) }
{
    if numbers.len() >= 0xffff_ffff {
        return Err(AllocError);
    }
    let mut entries = Vec::new(alloc);
    entries.resize(count, 0)?;
    note_entries(numbers, entries.as_mut_slice());
    Ok(entries)
}

#[tactic(auto, using(crate::proofs::Orders::place_push))]
fn note_entries(numbers: &[u32], entries: &mut [u32])
    requires inside { All (λ n. n < length entries.old) numbers.now }
    requires few { length numbers.now < 2 ^ 32 - 1 }
    requires fresh { (n : ℕ) → slice_index entries.old n ≡ 0 }
    ensures { (n : ℕ) → slice_index entries.new n ≡ want.place_from 1 n numbers.now }
{
    for i in 0..numbers.len() {
        note_entry(entries, numbers[i], i as u32 + 1);
    }
}

impl SymbolOrder {
    pub fn new(alloc: Global, symbols: &SymbolBook) -> Result<SymbolOrder, AllocError>
        ensures exact { IfOk result (λ o. o ≡ want.order symbols.now) }
        ensures inside { IfOk result (λ o. All (λ n. n < length symbols.now.names) o) }
    {
        let numbers = order_of(alloc, symbols)?;
        let entries = entries_of(alloc, numbers.as_slice(), symbols.len())?;
        Ok(SymbolOrder { numbers, entries })
    }

    /// The symbols by their numbers, in the order of their entries.
    pub fn numbers(&self) -> &[u32]
        ensures { result.now ≡ self.now }
    {
        self.numbers.as_slice()
    }

    /// The entry of a symbol.
    pub fn entry(&self, symbol: Option<u32>) -> u32
        ensures exact { result ≡ want.entry_in self.now symbol }
        ensures inside { result < 1 + length self.now }
    {
        match symbol {
            None => 0,
            Some(number) => self.entry_of(number),
        }
    }

    #[tactic(auto, using(crate::proofs::Typed::place_inside))]
    fn entry_of(&self, number: u32) -> u32
        ensures exact { result ≡ want.place_from 1 number self.now }
        ensures inside { result < 1 + length self.now }
    {
        if (number as usize) < self.entries.len() {
            self.entries[number as usize]
        } else {
            0
        }
    }
}

/// The symbols by their numbers, in the order of the entries from 1 on.
#[tactic(auto, unfolding(crate::specs::Symbols::order))]
fn order_of(alloc: Global, symbols: &SymbolBook) -> Result<Vec<u32>, AllocError>
    ensures order { IfOk result (λ v. v.items ≡ want.order symbols.now) }
    ensures inside { IfOk result (λ v. All (λ n. n < length symbols.now.names) v.items) }
{
    let mut numbers = locals(alloc, symbols, symbols.labels())?;
    push_others(symbols, &mut numbers)?;
    Ok(numbers)
}
