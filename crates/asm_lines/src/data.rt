ghost use Rattle.std.specs.Prelude.{◌≡◌, ◌≤◌, IfOk, false};
ghost use Rattle.std.specs.List.{list_all};
ghost use Rattle.asm_lines.specs.Directives as want;
ghost use Rattle.asm_lines.specs.Statements.{Answers, Encodable, Reads, fits_either};

use crate::immediates::is_short;
use crate::numbers::number_of;
use crate::pieces::Pieces;
use crate::statement::{AsmWhy, Item, LineError, Statement};
use crate::values::{Reference, difference_of, reference_of};
use orc_ids::{Bytes, Items};
use orc_words::fits_signed;
use std::alloc::Global;

/// S, S+N or S-N.
#[tactic(auto, unfolding(crate::specs::Directives::address_of))]
fn address_of(text: &[u8]) -> Option<Item<'_>>
    ensures { result ≡ want.address_of text.now }
{
    match reference_of(text) {
        None => Some(Item::Address(difference_of(text)?)),
        Some(reference) => Some(Item::Address(reference)),
    }
}

/// A number, or in four or eight bytes an address.
#[tactic(auto, unfolding(crate::specs::Directives::item_of))]
fn item_of(width: u8, text: &[u8]) -> Option<Item<'_>>
    ensures { result ≡ want.item_of width text.now }
{
    if let Some(n) = number_of(text) {
        return Some(Item::Number(n));
    }
    if width == 4 || width == 8 {
        address_of(text)
    } else {
        None
    }
}

/// The items of a directive, from the first that is left.
fn read_items<'a>(
    alloc: Global,
    width: u8,
    pieces: &mut Pieces<'a>,
) -> Result<Items<Item<'a>>, LineError>
    ensures { Reads (want.items_of width pieces.old) result }
{
    let mut items = Vec::new(alloc);
    while let Some(piece) = pieces.next() {
        match item_of(width, piece) {
            None => return Err(LineError::Bad(AsmWhy::Operands)),
            Some(item) => items.push(item)?,
        }
    }
    Ok(Items::from_vec(items))
}

/// Whether so many bits hold a number, read as a signed or as an unsigned one.
fn fits_either(bits: u32, n: i128) -> bool
    requires low { 1 ≤ bits }
    requires high { bits ≤ 64 }
    ensures { result ≡ fits_either bits n }
{
    if n < 0 {
        let half: i128 = 1 << (bits - 1);
        -half <= n
    } else {
        let end: u128 = 1 << bits;
        (n as u128) < end
    }
}

fn item_fits(width: u8, item: &Item) -> bool
    requires low { 1 ≤ width }
    requires high { width ≤ 8 }
    ensures { result ≡ want.item_fits width item.now }
{
    match item {
        Item::Number(n) => fits_either(8 * width as u32, *n),
        Item::Address(reference) => fits_signed::<64>(reference.addend),
    }
}

fn is_item_short(item: &Item) -> bool
    ensures { result ≡ want.item_short item.now }
{
    match item {
        Item::Number(_) => true,
        Item::Address(reference) => is_short(&reference.symbol),
    }
}

fn all_fit(width: u8, items: &[Item]) -> bool
    requires low { 1 ≤ width }
    requires high { width ≤ 8 }
    ensures { result ≡ list_all (want.item_fits width) items.now }
{
    items.iter().all(|item| item_fits(width, item))
}

fn are_short(items: &[Item]) -> bool
    ensures { result ≡ list_all want.item_short items.now }
{
    items.iter().all(|item| is_item_short(item))
}

/// `.byte`, `.half`, `.word` and `.dword`.
#[tactic(auto, unfolding(crate::specs::Directives::values_statement))]
pub(crate) fn values_statement<'a>(
    alloc: Global,
    width: u8,
    text: &'a [u8],
) -> Result<Statement<'a>, LineError>
    requires low { 1 ≤ width }
    requires high { width ≤ 8 }
    ensures exact { Answers (want.values_statement width text.now) result }
    ensures encodable { IfOk result Encodable }
{
    if text.is_empty() {
        return Err(LineError::Bad(AsmWhy::Operands));
    }
    let mut pieces = Pieces::new(text);
    let items = read_items(alloc, width, &mut pieces)?;
    if !all_fit(width, items.as_slice()) {
        return Err(LineError::Bad(AsmWhy::Number));
    }
    if !are_short(items.as_slice()) {
        return Err(LineError::Bad(AsmWhy::Name));
    }
    Ok(Statement::Values { width, items })
}

/// What an escaped byte of a string stands for.
fn escape_of(byte: u8) -> Option<u8>
    ensures { result ≡ want.escape_of byte }
{
    match byte {
        b'n' => Some(b'\n'),
        b'\\' => Some(b'\\'),
        b'"' => Some(b'"'),
        b'0' => Some(0),
        _ => None,
    }
}

/// The bytes of a string, of which this is what stands after its first quote.
fn unescaped(alloc: Global, text: &[u8]) -> Result<Bytes, LineError>
    ensures { Reads (want.unescaped false text.now) result }
{
    let mut bytes = Vec::new(alloc);
    let mut escaped = false;
    for (i, byte) in text.iter().enumerate() {
        if escaped {
            let Some(plain) = escape_of(*byte) else {
                return Err(LineError::Bad(AsmWhy::Operands));
            };
            bytes.push(plain)?;
            escaped = false;
        } else if *byte == b'\\' {
            escaped = true;
        } else if *byte == b'"' {
            return ended_string(bytes, text.len() - i);
        } else {
            bytes.push(*byte)?;
        }
    }
    Err(LineError::Bad(AsmWhy::Operands))
}

/// The bytes of a string whose last quote is one of so many bytes that are left; it must be the only
/// one.
fn ended_string(bytes: Vec<u8>, left: usize) -> Result<Bytes, LineError>
    ensures { Reads (want.ended_string left bytes.items) result }
{
    if left == 1 {
        Ok(Bytes::from_vec(bytes))
    } else {
        Err(LineError::Bad(AsmWhy::Operands))
    }
}

/// `.ascii "TEXT"`.
#[tactic(auto, unfolding(crate::specs::Directives::ascii_statement, crate::specs::Directives::string_of))]
pub(crate) fn ascii_statement<'a>(alloc: Global, text: &'a [u8]) -> Result<Statement<'a>, LineError>
    ensures exact { Answers (want.ascii_statement text.now) result }
    ensures encodable { IfOk result Encodable }
{
    match text {
        [b'"', string @ ..] => Ok(Statement::Ascii(unescaped(alloc, string)?)),
        _ => Err(LineError::Bad(AsmWhy::Operands)),
    }
}
