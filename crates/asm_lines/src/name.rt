ghost use Rattle.std.specs.Prelude.{◌≡◌};

use std::marker::Model;

/// A name as it stands in the text that is assembled: a symbol's or a section's. Contracts see the
/// list of its bytes.
#[derive(Drop)]
pub struct Name<'a> {
    text: &'a [u8],
}

impl<'a> Model for Name<'a> {
    ghost use Rattle.std.specs.Prelude.{ℕ, List};

    ghost Value = { List ℕ };

    ghost view = { λ n. n.text.now };
}

impl<'a> Name<'a> {
    pub fn new(text: &'a [u8]) -> Name<'a>
        ensures { result ≡ text.now }
    {
        Name { text }
    }

    pub fn as_slice(&self) -> &'a [u8]
        ensures { result.now ≡ self.now }
    {
        self.text
    }
}
