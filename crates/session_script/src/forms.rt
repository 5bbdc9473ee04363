ghost use Rattle.std.specs.Prelude.{◌≡◌, ◌<◌, map};
ghost use Rattle.std.specs.List.{list_all};
ghost use Rattle.session_script.specs.Forms.{fits, is_item, is_scope, scope_of, is_level, level_of, address_part, argument_in, fuel_in};
ghost use Rattle.session_script.specs.Words.{has_byte, is_word, is_name, is_file, is_symbol, digit_value, number_in, number_after, at_most};

use crate::limits::{FUEL_LIMIT, NUMBER_LIMIT};
use crate::words::{cut, ends_marked, unmarked};
use orc_ids::{Level, Scope};
use orc_names::NAME_LIMIT;

/// What a word is made of.
#[derive(Clone, Copy)]
pub enum Alphabet {
    /// Letters, digits and `_`.
    Declared,
    /// The bytes of printed ASCII but the space.
    File,
    /// Bytes above the space, but for 0x7F, `,`, `=` and `@`.
    Symbol,
}

fn has_byte(kind: Alphabet, b: u8) -> bool
    ensures { result ≡ has_byte kind b }
{
    match kind {
        Alphabet::Declared => b.is_ascii_alphanumeric() || b == b'_',
        Alphabet::File => b.is_ascii_graphic(),
        Alphabet::Symbol => { b > b' ' && b != 0x7f && b != b',' && b != b'=' && b != b'@' }
    }
}

fn has_bytes(kind: Alphabet, word: &[u8]) -> bool
    ensures { result ≡ list_all (has_byte kind) word.now }
{
    for b in word {
        if !has_byte(kind, *b) {
            return false;
        }
    }
    true
}

fn is_word(kind: Alphabet, word: &[u8]) -> bool
    ensures { result ≡ is_word kind word.now }
{
    !word.is_empty() && has_bytes(kind, word)
}

/// Whether a word may name a dylib or a tracker.
pub fn is_name(word: &[u8]) -> bool
    ensures { result ≡ is_name word.now }
{
    word.len() <= NAME_LIMIT && is_word(Alphabet::Declared, word)
}

/// Whether a word may name a file.
pub fn is_file(word: &[u8]) -> bool
    ensures { result ≡ is_file word.now }
{
    is_word(Alphabet::File, word)
}

/// Whether a word may name a symbol.
pub fn is_symbol(word: &[u8]) -> bool
    ensures { result ≡ is_symbol word.now }
{
    word.len() <= NAME_LIMIT && is_word(Alphabet::Symbol, word) && !ends_marked(word)
}

/// What a word of a list has to be.
#[derive(Clone, Copy)]
pub enum Form {
    /// D:all or D:exported.
    Item,
    /// A symbol's name, with or without its mark.
    Wanted,
    /// What stands before `=` is a symbol's name.
    Defined,
    /// What stands after `=` is an address.
    Addressed,
    Argument,
}

pub fn fits(form: Form, word: &[u8]) -> bool
    ensures { result ≡ fits form word.now }
{
    match form {
        Form::Item => is_item(word),
        Form::Wanted => is_symbol(unmarked(word).0),
        Form::Defined => is_symbol(cut(word, b'=').0),
        Form::Addressed => read_address(word).is_some(),
        Form::Argument => read_argument(word).is_some(),
    }
}

/// Whether each of the words is of the form.
pub fn all_fit(form: Form, words: &[&[u8]]) -> bool
    ensures { result ≡ list_all (fits form) (map (λ w. w.now) words.now) }
{
    for word in words {
        if !fits(form, word) {
            return false;
        }
    }
    true
}

fn is_item(item: &[u8]) -> bool
    ensures { result ≡ is_item item.now }
{
    let (dylib, scope) = cut(item, b':');
    is_name(dylib) && is_scope(scope)
}

fn is_scope(word: &[u8]) -> bool
    ensures { result ≡ is_scope word.now }
{
    word == b"all".as_slice() || word == b"exported".as_slice()
}

pub fn scope_of(word: &[u8]) -> Scope
    ensures { result ≡ scope_of word.now }
{
    if word == b"exported".as_slice() {
        Scope::Exported
    } else {
        Scope::All
    }
}

pub fn is_level(word: &[u8]) -> bool
    ensures { result ≡ is_level word.now }
{
    word == b"resolved".as_slice() || word == b"ready".as_slice()
}

pub fn level_of(word: &[u8]) -> Level
    ensures { result ≡ level_of word.now }
{
    if word == b"ready".as_slice() {
        Level::Ready
    } else {
        Level::Resolved
    }
}

/// The address that stands after `=`, if one does.
pub fn read_address(definition: &[u8]) -> Option<u64>
    ensures { result ≡ address_part definition.now }
{
    read_number(16, NUMBER_LIMIT, cut(definition, b'=').1)
}

pub fn read_argument(word: &[u8]) -> Option<u64>
    ensures { result ≡ argument_in word.now }
{
    read_number(10, NUMBER_LIMIT, word)
}

pub fn read_fuel(word: &[u8]) -> Option<u64>
    ensures { result ≡ fuel_in word.now }
{
    read_number(10, FUEL_LIMIT, word)
}

/// The number that a word writes in digits of the base, if it is at most this.
pub fn read_number(base: u8, most: u64, word: &[u8]) -> Option<u64>
    requires { 0 < base }
    ensures { result ≡ at_most most (number_in base word.now) }
{
    match word {
        [] => None,
        [b'0', _, ..] => None,
        digits => read_digits(base, most, digits),
    }
}

/// The number that digits write.
fn read_digits(base: u8, most: u64, digits: &[u8]) -> Option<u64>
    requires { 0 < base }
    ensures { result ≡ at_most most (number_after base 0 digits.now) }
{
    let mut number = 0;
    for digit in digits {
        let value = digit_value(*digit);
        if value >= base {
            return None;
        }
        let next = u128::from(base) * u128::from(number) + u128::from(value);
        if next > u128::from(most) {
            return None;
        }
        number = next as u64;
    }
    Some(number)
}

fn digit_value(digit: u8) -> u8
    ensures { result ≡ digit_value digit }
{
    match digit {
        b'0'..=b'9' => digit - b'0',
        b'a'..=b'f' => digit - b'a' + 10,
        _ => 16,
    }
}
