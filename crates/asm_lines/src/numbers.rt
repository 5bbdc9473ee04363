ghost use Rattle.std.specs.Prelude.{◌≡◌, ◌≤◌, IfSome, true};
ghost use Rattle.std.specs.List.{list_all};
ghost use Rattle.asm_lines.specs.Words as words;
ghost use Rattle.asm_lines.specs.Numbers as want;

use crate::words::is_digit;

/// What a number that no place holds stands as.
const LARGEST: u128 = 1 << 64;

fn is_hex_digit(byte: u8) -> bool
    ensures { result ≡ want.is_hex_digit byte }
{
    is_digit(byte) || b'A' <= byte && byte <= b'F' || b'a' <= byte && byte <= b'f'
}

/// What a digit stands for.
fn digit_of(byte: u8) -> u8
    ensures { result ≡ want.digit_of byte }
{
    match byte {
        b'0'..=b'9' => byte - b'0',
        b'a'..=u8::MAX => byte - (b'a' - 10),
        _ => byte.saturating_sub(b'A' - 10),
    }
}

fn all_decimal(text: &[u8]) -> bool
    ensures { result ≡ list_all words.is_digit text.now }
{
    text.iter().all(|byte| is_digit(*byte))
}

fn all_hexadecimal(text: &[u8]) -> bool
    ensures { result ≡ list_all want.is_hex_digit text.now }
{
    text.iter().all(|byte| is_hex_digit(*byte))
}

/// The number of digits to a base; past 2^64 it stands as 2^64.
fn value_of(digits: &[u8], base: u128) -> u128
    requires low { 1 ≤ base }
    requires high { base ≤ 16 }
    ensures exact { result ≡ want.value_of base digits.now }
    ensures bound { result ≤ want.largest }
{
    let mut value: u128 = 0;
    for byte in digits {
        value = (value * base + digit_of(*byte) as u128).min(LARGEST);
    }
    value
}

/// The number below zero of this size.
fn negated(size: u128) -> i128
    requires { size ≤ want.largest }
    ensures exact { result ≡ want.minus size }
    ensures small { want.is_small result ≡ true }
{
    -(size as i128)
}

#[tactic(auto, unfolding(crate::specs::Numbers::decimal_of))]
fn decimal_of(text: &[u8]) -> Option<u128>
    ensures exact { result ≡ want.decimal_of text.now }
    ensures bound { IfSome result (λ n. n ≤ want.largest) }
{
    match text {
        [_, ..] if all_decimal(text) => Some(value_of(text, 10)),
        _ => None,
    }
}

#[tactic(auto, unfolding(crate::specs::Numbers::hexadecimal_of))]
fn hexadecimal_of(text: &[u8]) -> Option<u128>
    ensures exact { result ≡ want.hexadecimal_of text.now }
    ensures bound { IfSome result (λ n. n ≤ want.largest) }
{
    match text {
        [_, ..] if all_hexadecimal(text) => Some(value_of(text, 16)),
        _ => None,
    }
}

#[tactic(auto, unfolding(crate::specs::Numbers::unsigned_of))]
fn unsigned_of(text: &[u8]) -> Option<u128>
    ensures exact { result ≡ want.unsigned_of text.now }
    ensures bound { IfSome result (λ n. n ≤ want.largest) }
{
    match text {
        [b'0', b'x', digits @ ..] => hexadecimal_of(digits),
        _ => decimal_of(text),
    }
}

/// A number; one past 2^64 in size stands as 2^64 or its negative.
#[tactic(auto, unfolding(crate::specs::Numbers::number_of))]
pub(crate) fn number_of(text: &[u8]) -> Option<i128>
    ensures exact { result ≡ want.number_of text.now }
    ensures small { IfSome result (λ z. want.is_small z ≡ true) }
{
    match text {
        [] => None,
        [b'-', digits @ ..] => Some(negated(decimal_of(digits)?)),
        _ => Some(unsigned_of(text)? as i128),
    }
}
