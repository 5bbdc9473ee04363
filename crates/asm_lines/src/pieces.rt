ghost use Rattle.std.specs.Prelude.{◌≡◌, ◌∷◌, [], MatchOption};
ghost use Rattle.asm_lines.specs.Pieces as want;

use crate::words::{after_place, first_at, trimmed};
use std::marker::Model;

/// The operands of a statement that are still to be read. Contracts see the list.
#[derive(Drop)]
pub(crate) struct Pieces<'a> {
    text: &'a [u8],
    more: bool,
}

impl<'a> Model for Pieces<'a> {
    ghost use Rattle.std.specs.Prelude.{ℕ, List, [], map, if◌then◌else◌};
    ghost use Rattle.std.specs.List.{slice_split};
    ghost use Rattle.asm_lines.specs.Pieces.{is_comma};
    ghost use Rattle.asm_lines.specs.Words.{trimmed};

    ghost Value = { List (List ℕ) };

    ghost view = { λ p. if p.more then map trimmed (slice_split is_comma p.text.now) else [] };
}

impl<'a> Pieces<'a> {
    #[tactic(auto, unfolding(crate::specs::Pieces::pieces_of))]
    pub fn new(text: &'a [u8]) -> Pieces<'a>
        ensures { result ≡ want.pieces_of text.now }
    {
        match text {
            [] => Pieces { text, more: false },
            [_, ..] => Pieces { text, more: true },
        }
    }

    /// Takes the next operand.
    pub fn next(&mut self) -> Option<&'a [u8]>
        ensures { MatchOption result ((self.old ≡ []) × (self.new ≡ [])) (λ piece. self.old ≡ piece.now ∷ self.new) }
    {
        if !self.more {
            return None;
        }
        let text = self.text;
        match first_at(text, b',') {
            None => {
                self.more = false;
                Some(trimmed(text))
            }
            Some(end) => {
                self.text = after_place(text, end);
                Some(trimmed(&text[..end]))
            }
        }
    }
}
