ghost use Rattle.std.specs.Prelude.{◌≡◌, ◌++◌, OnOk};

use crate::words::put;
use itoa::Integer;
use std::alloc::AllocError;

/// A decimal number.
pub fn put_decimal<I: Integer>(out: &mut Vec<u8>, number: I) -> Result<(), AllocError>
    ensures { OnOk result (out.new.items ≡ out.old.items ++ I.text number) }
{
    let mut buffer = itoa::Buffer::new();
    put(out, buffer.format(number).as_bytes())
}

/// A text and a decimal number.
pub fn put_numbered<I: Integer>(out: &mut Vec<u8>, text: &[u8], number: I) -> Result<(), AllocError>
    ensures { OnOk result (out.new.items ≡ out.old.items ++ (text.now ++ I.text number)) }
{
    put(out, text)?;
    put_decimal(out, number)
}

/// Two texts, each with a decimal number.
pub fn put_pair<I: Integer, J: Integer>(
    out: &mut Vec<u8>,
    text: &[u8],
    number: I,
    next: &[u8],
    second: J,
) -> Result<(), AllocError>
    ensures { OnOk result (out.new.items ≡ out.old.items ++ (text.now ++ I.text number ++ next.now ++ J.text second)) }
{
    put_numbered(out, text, number)?;
    put_numbered(out, next, second)
}
