ghost use Rattle.std.specs.Prelude.{◌≡◌, ◌<◌, ◌+◌, ◌∷◌, [], length, take, drop, MatchOption, position};
ghost use Rattle.asm_text.specs.Texts as want;

use std::marker::Model;

/// The lines of a text that are still to be read. Contracts see the list.
#[derive(Drop)]
pub(crate) struct Lines<'a> {
    text: &'a [u8],
    more: bool,
}

impl<'a> Model for Lines<'a> {
    ghost use Rattle.std.specs.Prelude.{ℕ, List, [], if◌then◌else◌};
    ghost use Rattle.std.specs.List.{slice_split};
    ghost use Rattle.asm_text.specs.Texts.{is_newline};

    ghost Value = { List (List ℕ) };

    ghost view = { λ l. if l.more then slice_split is_newline l.text.now else [] };
}

fn newline_in(text: &[u8]) -> Option<usize>
    ensures { result ≡ position want.is_newline text.now }
{
    text.iter().position(|b| *b == b'\n')
}

/// What stands before a place, and what stands after it.
fn parted(text: &[u8], place: usize) -> (&[u8], &[u8])
    requires { place < length text.now }
    ensures before { result.0.now ≡ take place text.now }
    ensures after { result.1.now ≡ drop (place + 1) text.now }
{
    (&text[..place], &text[place + 1..])
}

impl<'a> Lines<'a> {
    #[tactic(auto, unfolding(crate::specs::Texts::lines_of))]
    pub fn new(text: &'a [u8]) -> Lines<'a>
        ensures { result ≡ want.lines_of text.now }
    {
        Lines { text, more: true }
    }

    /// Takes the next line.
    pub fn next(&mut self) -> Option<&'a [u8]>
        ensures { MatchOption result ((self.old ≡ []) × (self.new ≡ [])) (λ line. self.old ≡ line.now ∷ self.new) }
    {
        if !self.more {
            return None;
        }
        let text = self.text;
        match newline_in(text) {
            None => {
                self.more = false;
                Some(text)
            }
            Some(end) => {
                let (line, rest) = parted(text, end);
                self.text = rest;
                Some(line)
            }
        }
    }
}
