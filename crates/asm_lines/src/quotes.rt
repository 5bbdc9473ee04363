ghost use Rattle.std.specs.Prelude.{◌≡◌, ◌≤◌, length};
ghost use Rattle.asm_lines.specs.declared.quotes.Quote.TheVariants.{Outside};
ghost use Rattle.asm_lines.specs.Words.{after_byte, is_outside, outside_len};

/// Where a byte of a line stands.
#[derive(Clone, Copy)]
pub enum Quote {
    /// In no string.
    Outside,
    /// In a string.
    Inside,
    /// In a string, after a backslash.
    Escaped,
}

impl Quote {
    fn after(self, byte: u8) -> Quote
        ensures { result ≡ after_byte self byte }
    {
        match self {
            Quote::Outside => if byte == b'"' {
                Quote::Inside
            } else {
                Quote::Outside
            },
            Quote::Inside => inside_after(byte),
            Quote::Escaped => Quote::Inside,
        }
    }

    fn is_outside(self) -> bool
        ensures { result ≡ is_outside self }
    {
        match self {
            Quote::Outside => true,
            Quote::Inside => false,
            Quote::Escaped => false,
        }
    }
}

fn inside_after(byte: u8) -> Quote
    ensures { result ≡ after_byte Quote.Inside byte }
{
    match byte {
        b'"' => Quote::Outside,
        b'\\' => Quote::Escaped,
        _ => Quote::Inside,
    }
}

/// How many bytes stand before the first such byte that is in no string; all where there is none.
pub(crate) fn bytes_before(text: &[u8], wanted: u8) -> usize
    ensures exact { result ≡ outside_len wanted Outside text.now }
    ensures inside { result ≤ length text.now }
{
    let mut quote = Quote::Outside;
    for (i, byte) in text.iter().enumerate() {
        if quote.is_outside() && *byte == wanted {
            return i;
        }
        quote = quote.after(*byte);
    }
    text.len()
}
