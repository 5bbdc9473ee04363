ghost use Rattle.std.specs.Prelude.{◌≡◌, map, IfOk, position};
ghost use Rattle.std.specs.List.{list_any};
ghost use Rattle.session_script.specs.Words.{parts, before, after, is_byte, is_barred, is_spaced, is_skipped, unmarked, is_marked};

use std::alloc::{AllocError, Global};

/// The parts of a text that a byte parts.
pub fn split<'a>(alloc: Global, text: &'a [u8], this: u8) -> Result<Vec<&'a [u8]>, AllocError>
    ensures { IfOk result (λ v. map (λ part. part.now) v.items ≡ parts this text.now) }
{
    text.split(|b| *b == this).collect(alloc)
}

/// What stands before the first such byte and after it: all and nothing where there is none.
pub fn cut(text: &[u8], this: u8) -> (&[u8], &[u8])
    ensures before { result.0.now ≡ before this text.now }
    ensures after { result.1.now ≡ after this text.now }
{
    match find(text, this) {
        Some(at) => (&text[..at], &text[at + 1..]),
        None => (text, &[]),
    }
}

/// The first place of a byte.
fn find(text: &[u8], this: u8) -> Option<usize>
    ensures { result ≡ position (is_byte this) text.now }
{
    text.iter().position(|b| *b == this)
}

/// Whether a line is empty, or starts with `#`.
pub fn is_skipped(line: &[u8]) -> bool
    ensures { result ≡ is_skipped line.now }
{
    match line {
        [] => true,
        [first, ..] => *first == b'#',
    }
}

/// Whether no line may have this one's bytes.
pub fn has_barred(line: &[u8]) -> bool
    ensures { result ≡ list_any is_barred line.now }
{
    for b in line {
        if *b < 0x20 || *b == 0x7f {
            return true;
        }
    }
    false
}

/// Whether single spaces part the words.
pub fn is_spaced(words: &[&[u8]]) -> bool
    ensures { result ≡ is_spaced (map (λ word. word.now) words.now) }
{
    for word in words {
        if word.is_empty() {
            return false;
        }
    }
    true
}

/// A wanted name without its mark, and whether it has one.
pub fn unmarked(word: &[u8]) -> (&[u8], bool)
    ensures name { result.0.now ≡ unmarked word.now }
    ensures marked { result.1 ≡ is_marked word.now }
{
    if ends_marked(word) {
        (&word[..word.len() - 1], true)
    } else {
        (word, false)
    }
}

/// Whether a word ends in `?`.
pub fn ends_marked(word: &[u8]) -> bool
    ensures { result ≡ is_marked word.now }
{
    let len = word.len();
    len > 0 && word[len - 1] == b'?'
}
