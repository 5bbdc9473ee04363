ghost use Rattle.std.specs.Prelude.{◌≡◌, ◌+◌, ◌<◌, ◌≤◌, ◌^◌, ◌⊎◌, [], List, ℕ, Some, length, map, Contains, IfOk, IfErr, OnOk, IsTrue};
ghost use Rattle.orc_names.specs.Numbers.{KeepsNumbers};
ghost use Rattle.link_graph.specs.declared.error.GraphError.TheVariants.{NoMemory};
ghost use Rattle.link_graph.specs.Object.{is_local, is_weak, is_function, is_exported, is_passed, is_global, graph_place, graph_flags, graph_symbol, graph_symbols, name_number, own_number};
ghost use Rattle.link_model.specs.Image.{at_or};
ghost use Rattle.link_graph.specs.Padding.{moved, trimmed_symbol};
ghost use Rattle.link_graph.specs.Parts.{graph_places};
ghost use Rattle.link_graph.specs.Read.{HasShortNames, AreNamed, AddsNamesOf};

use crate::blocks::in_common;
use crate::cuts::Cuts;
use crate::error::GraphError;
use elf_read::{SymPlace, Symbol};
use link_model::{GPlace, GSym};
use orc_ids::{NameId, SymFlags};
use orc_names::Names;
use std::alloc::{AllocError, Global};

/// `STB_LOCAL` and `STB_WEAK`.
const LOCAL: u8 = 0;

const WEAK: u8 = 2;

/// `STT_FUNC`.
const FUNC: u8 = 2;

/// `STV_DEFAULT` and `STV_PROTECTED`.
const DEFAULT: u8 = 0;

const PROTECTED: u8 = 3;

fn passed_over(place: SymPlace) -> bool
    ensures { result ≡ is_passed place }
{
    matches!(place, SymPlace::Passed)
}

/// Whether other units may see the symbol.
fn seen_by_others(s: &Symbol) -> bool
    ensures { result ≡ is_global s.now }
{
    s.bind != LOCAL && !passed_over(s.place)
}

/// Where a place of a section is after deletion.
fn moved_in(cuts: &[Cuts], section: u32, value: u64) -> u64
    ensures { result ≡ moved (at_or [] cuts.now section) value }
{
    match cuts.get(section as usize) {
        Some(cuts) => cuts.moved(value),
        None => value,
    }
}

fn place_in_graph(s: &Symbol, common: u32, cuts: &[Cuts]) -> GPlace
    ensures { result ≡ graph_place common (trimmed_symbol cuts.now s.now) s.now.place }
{
    match s.place {
        SymPlace::Undef => GPlace::External(s.bind == WEAK),
        SymPlace::Abs => GPlace::Abs(s.value),
        SymPlace::Common => GPlace::In(common, 0),
        SymPlace::In(section) => GPlace::In(section, moved_in(cuts, section, s.value)),
        SymPlace::Passed => GPlace::Abs(0),
    }
}

fn flags_in_graph(s: &Symbol) -> SymFlags
    ensures { result ≡ graph_flags s.now }
{
    let passed = passed_over(s.place);
    SymFlags {
        weak: !passed && s.bind == WEAK,
        common: in_common(s.place),
        exported: !passed && (s.vis == DEFAULT || s.vis == PROTECTED),
        callable: !passed && s.kind == FUNC,
    }
}

/// Interns one name.
fn intern_name(names: &mut Names, text: &[u8]) -> Result<NameId, GraphError>
    requires { length text.now ≤ 4096 }
    ensures number { IfOk result (λ name. name_number names.new text.now ≡ Some name) }
    ensures older { KeepsNumbers names.old names.new }
    ensures named { OnOk result (Contains names.new text.now) }
    ensures only { (other : List ℕ) → Contains names.new other → Contains names.old other ⊎ (text.now ≡ other) }
    ensures err { IfErr result (λ why. why ≡ NoMemory) }
{
    match names.intern(text) {
        Ok(name) => Ok(name),
        Err(_) => Err(GraphError::NoMemory),
    }
}

/// The number of a symbol's name, which is interned where other units may see the symbol; of no other
/// name.
fn number_of(names: &mut Names, s: &Symbol) -> Result<Option<NameId>, GraphError>
    requires { length s.now.name ≤ 4096 }
    ensures number { IfOk result (λ number. number ≡ own_number names.new s.now) }
    ensures older { KeepsNumbers names.old names.new }
    ensures named { OnOk result (IsTrue (is_global s.now) → Contains names.new s.now.name) }
    ensures only { (text : List ℕ) → Contains names.new text → Contains names.old text ⊎ (IsTrue (is_global s.now) × (s.now.name ≡ text)) }
    ensures err { IfErr result (λ why. why ≡ NoMemory) }
{
    if !seen_by_others(s) {
        return Ok(None);
    }
    let name = intern_name(names, s.name.as_slice())?;
    Ok(Some(name))
}

/// The symbol whose name has this number.
fn symbol_in_graph(name: Option<NameId>, s: &Symbol, common: u32, cuts: &[Cuts]) -> GSym
    ensures { (names : List (List ℕ)) → name ≡ own_number names s.now → result ≡ graph_symbol names common (trimmed_symbol cuts.now s.now) }
{
    GSym {
        name,
        place: place_in_graph(s, common, cuts),
        flags: flags_in_graph(s),
        global: seen_by_others(s),
    }
}

/// The symbols after deletion of a graph whose first common block has this number. The names of those
/// that other units may see are interned, each in one step with its symbol.
pub(crate) fn all_symbols(
    alloc: Global,
    names: &mut Names,
    symbols: &[Symbol],
    first_common: u32,
    cuts: &[Cuts],
) -> Result<Vec<GSym>, GraphError>
    requires few { first_common + length symbols.now < 2 ^ 32 }
    requires short { HasShortNames symbols.now }
    ensures symbols { IfOk result (λ made. made.items ≡ graph_symbols names.new first_common (map (trimmed_symbol cuts.now) symbols.now)) }
    ensures older { KeepsNumbers names.old names.new }
    ensures named { OnOk result (AreNamed names.new symbols.now) }
    ensures only { AddsNamesOf symbols.now names.old names.new }
    ensures err { IfErr result (λ why. why ≡ NoMemory) }
{
    let mut made = Vec::with_capacity(alloc, symbols.len())?;
    let mut common = first_common;
    for s in symbols {
        let name = number_of(names, s)?;
        made.push(symbol_in_graph(name, s, common, cuts))?;
        if in_common(s.place) {
            common += 1;
        }
    }
    Ok(made)
}

/// The places of those symbols.
pub(crate) fn all_places(
    alloc: Global,
    symbols: &[Symbol],
    first_common: u32,
    cuts: &[Cuts],
) -> Result<Vec<GPlace>, AllocError>
    requires { first_common + length symbols.now < 2 ^ 32 }
    ensures { IfOk result (λ places. places.items ≡ graph_places first_common (map (trimmed_symbol cuts.now) symbols.now)) }
{
    let mut places = Vec::with_capacity(alloc, symbols.len())?;
    let mut common = first_common;
    for s in symbols {
        places.push(place_in_graph(s, common, cuts))?;
        if in_common(s.place) {
            common += 1;
        }
    }
    Ok(places)
}
