ghost use Rattle.std.specs.Prelude.{◌≡◌, ◌==◌, ◌<◌, ◌≤◌, ◌+◌, ◌-◌, not, length, drop, position, IfSome};
ghost use Rattle.std.specs.List.{position_or_len, suffix_len, list_all};
ghost use Rattle.asm_lines.specs.Words as words;

use crate::quotes::bytes_before;

pub(crate) fn is_blank(byte: u8) -> bool
    ensures { result ≡ words.is_blank byte }
{
    byte == b' ' || byte == b'\t'
}

pub(crate) fn is_digit(byte: u8) -> bool
    ensures { result ≡ words.is_digit byte }
{
    b'0' <= byte && byte <= b'9'
}

fn is_letter(byte: u8) -> bool
    ensures { result ≡ words.is_letter byte }
{
    b'A' <= byte && byte <= b'Z' || b'a' <= byte && byte <= b'z'
}

fn is_mark(byte: u8) -> bool
    ensures { result ≡ words.is_mark byte }
{
    byte == b'_' || byte == b'.' || byte == b'$'
}

pub(crate) fn is_symbol_byte(byte: u8) -> bool
    ensures { result ≡ words.is_symbol_byte byte }
{
    is_letter(byte) || is_digit(byte) || is_mark(byte)
}

pub(crate) fn has_symbol_bytes(text: &[u8]) -> bool
    ensures { result ≡ list_all words.is_symbol_byte text.now }
{
    text.iter().all(|byte| is_symbol_byte(*byte))
}

/// Whether a text is a symbol, however long.
#[tactic(auto, unfolding(crate::specs::Words::is_symbol))]
pub(crate) fn is_symbol(text: &[u8]) -> bool
    ensures { result ≡ words.is_symbol text.now }
{
    match text {
        [] => false,
        [first, ..] => !is_digit(*first) && has_symbol_bytes(text),
    }
}

/// The place of the first byte that is no blank.
fn first_dark(text: &[u8]) -> Option<usize>
    ensures { result ≡ position (λ b. not (words.is_blank b)) text.now }
{
    text.iter().position(|byte| !is_blank(*byte))
}

fn first_blank(text: &[u8]) -> Option<usize>
    ensures { result ≡ position words.is_blank text.now }
{
    text.iter().position(|byte| is_blank(*byte))
}

#[tactic(auto, unfolding(crate::specs::Words::after_blanks))]
pub(crate) fn after_blanks(text: &[u8]) -> &[u8]
    ensures { result.now ≡ words.after_blanks text.now }
{
    match first_dark(text) {
        None => &[],
        Some(start) => &text[start..],
    }
}

/// How long a text is without the blanks that it ends with.
fn dark_len(text: &[u8]) -> usize
    ensures exact { result ≡ length text.now - suffix_len words.is_blank text.now }
    ensures inside { result ≤ length text.now }
{
    let mut end = text.len();
    while end > 0 && is_blank(text[end - 1]) {
        end -= 1;
    }
    end
}

#[tactic(auto, unfolding(crate::specs::Words::before_blanks))]
pub(crate) fn before_blanks(text: &[u8]) -> &[u8]
    ensures { result.now ≡ words.before_blanks text.now }
{
    &text[..dark_len(text)]
}

#[tactic(auto, unfolding(crate::specs::Words::trimmed))]
pub(crate) fn trimmed(text: &[u8]) -> &[u8]
    ensures { result.now ≡ words.trimmed text.now }
{
    before_blanks(after_blanks(text))
}

pub(crate) fn first_at(text: &[u8], wanted: u8) -> Option<usize>
    ensures exact { result ≡ position (λ b. b == wanted) text.now }
    ensures inside { IfSome result (λ n. n < length text.now) }
{
    text.iter().position(|byte| *byte == wanted)
}

/// How many bytes stand before the first such byte; all where there is none.
pub(crate) fn len_before(text: &[u8], wanted: u8) -> usize
    ensures exact { result ≡ position_or_len (λ b. b == wanted) text.now }
    ensures inside { result ≤ length text.now }
{
    match first_at(text, wanted) {
        None => text.len(),
        Some(n) => n,
    }
}

/// What stands after the byte at a place, if there is one.
pub(crate) fn after_place(text: &[u8], n: usize) -> &[u8]
    ensures { result.now ≡ drop (n + 1) text.now }
{
    if n < text.len() { &text[n + 1..] } else { &[] }
}

/// A line without its comment.
#[tactic(auto, unfolding(crate::specs::Words::code_of))]
pub(crate) fn code_of(line: &[u8]) -> &[u8]
    ensures { result.now ≡ words.code_of line.now }
{
    &line[..bytes_before(line, b'#')]
}

/// How many bytes stand before the first blank.
fn word_len(text: &[u8]) -> usize
    ensures exact { result ≡ position_or_len words.is_blank text.now }
    ensures inside { result ≤ length text.now }
{
    match first_blank(text) {
        None => text.len(),
        Some(end) => end,
    }
}

/// A statement's first word and its operands.
#[tactic(auto, unfolding(crate::specs::Words::first_word, crate::specs::Words::operands_text))]
pub(crate) fn split_word(text: &[u8]) -> (&[u8], &[u8])
    ensures word { result.0.now ≡ words.first_word text.now }
    ensures operands { result.1.now ≡ words.operands_text text.now }
{
    let end = word_len(text);
    (&text[..end], after_blanks(&text[end..]))
}
