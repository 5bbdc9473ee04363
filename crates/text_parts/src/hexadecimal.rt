ghost use Rattle.std.specs.Prelude.{◌≡◌, ◌++◌, OnOk};
ghost use Rattle.text_parts.specs.Hexadecimal.{hex, hex_bytes};

use crate::words::put;
use std::alloc::{AllocError, Global};

/// A text and an address.
pub fn put_at(alloc: Global, out: &mut Vec<u8>, text: &[u8], address: u64) -> Result<(), AllocError>
    ensures { OnOk result (out.new.items ≡ out.old.items ++ (text.now ++ hex address)) }
{
    let digits = format!(in alloc; "{address:x}")?;
    put(out, text)?;
    put(out, digits.as_bytes())
}

/// Bytes, two digits for each.
pub fn put_hex_bytes(alloc: Global, out: &mut Vec<u8>, bytes: &[u8]) -> Result<(), AllocError>
    ensures { OnOk result (out.new.items ≡ out.old.items ++ hex_bytes bytes.now) }
{
    let digits = hex::encode(alloc, bytes)?;
    put(out, digits.as_bytes())
}
