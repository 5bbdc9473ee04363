ghost use Rattle.std.specs.Prelude.{◌≡◌};
ghost use Rattle.std.specs.Option.{option_copied};
ghost use Rattle.command_line.specs.Numbers.{is_padded, at_most, from_one, number_of, number_or};

/// The number that an option gives, if it is one that it may give; the usual one where it isn't given.
pub fn number_or(usual: u64, most: u64, text: Option<&str>) -> Option<u64>
    ensures { result ≡ number_or usual most (option_copied text.entry) }
{
    match text {
        Some(text) => read_number(text, most),
        None => Some(usual),
    }
}

/// The number that a text is, if it is from 1 up to this.
pub fn number_from_one(text: &str, most: u64) -> Option<u64>
    ensures { result ≡ from_one (at_most most (number_of text.now)) }
{
    match read_number(text, most) {
        Some(0) => None,
        number => number,
    }
}

/// The number that a text is, if it is small enough: `0`, or digits that don't begin with 0.
fn read_number(text: &str, most: u64) -> Option<u64>
    ensures { result ≡ at_most most (number_of text.now) }
{
    if is_padded(text) {
        return None;
    }
    text.parse::<u64>().ok().filter(|number| *number <= most)
}

/// A text with a `+` or a 0 in front of digits: `parse` takes it, and it is no number here.
fn is_padded(text: &str) -> bool
    ensures { result ≡ is_padded text.now }
{
    text.starts_with('+') || (text.starts_with('0') && text != "0")
}
