//! The text of what a session came to.
ghost use Rattle.std.specs.Prelude.{◌≡◌, ◌++◌, ◌∷◌, [], IfOk, OnOk};
ghost use Rattle.generated_session.specs.Counts.{text_of};

use crate::counts::Counts;
use itoa::Integer;
use orc_ids::Bytes;
use std::alloc::{AllocError, Global};
use text_parts::{put, put_numbered};

/// A line of a label and a number.
fn put_line<I: Integer>(out: &mut Vec<u8>, label: &[u8], number: I) -> Result<(), AllocError>
    ensures { OnOk result (out.new.items ≡ out.old.items ++ (label.now ++ I.text number ++ 10 ∷ [])) }
{
    put_numbered(out, label, number)?;
    put(out, b"\n")
}

impl Counts {
    /// A line for each count.
    pub fn text(&self, alloc: Global) -> Result<Bytes, AllocError>
        ensures { IfOk result (λ text. text ≡ text_of self.now) }
    {
        let mut out = Vec::new(alloc);
        put_line(&mut out, b"objects ", self.objects)?;
        put_line(&mut out, b"heads ", self.heads)?;
        put_line(&mut out, b"sum ", self.sum)?;
        put_line(&mut out, b"removed ", self.removed)?;
        put_line(&mut out, b"found ", self.found)?;
        put_line(&mut out, b"failed ", self.failed)?;
        put_line(&mut out, b"missing ", self.missing)?;
        Ok(Bytes::from_vec(out))
    }
}
