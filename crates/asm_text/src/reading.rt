ghost use Rattle.std.specs.Prelude.{◌≡◌, IfOk};
ghost use Rattle.asm_text.specs.Texts as want;

use crate::assembler::Assembler;
use asm_lines::AsmWhy;
use std::alloc::{AllocError, Global};

/// A line that is refused, by its number, which counts from 1.
#[derive(Clone, Copy, Debug, PartialEq, Eq)]
pub struct BadLine {
    pub line: u32,
    pub why: AsmWhy,
}

/// What was known when reading ended, and the line that ended it, if one was refused.
#[derive(Drop)]
pub struct Reading<'a> {
    pub known: Assembler<'a>,
    pub bad: Option<BadLine>,
}

/// Reads the lines of a text, up to the first that is refused. Branches that are filled in are judged
/// later, when all labels are known.
#[tactic(auto, unfolding(crate::specs::Texts::reading))]
pub fn read_text(alloc: Global, text: &[u8]) -> Result<Reading<'_>, AllocError>
    ensures { IfOk result (λ r. want.reading text.now ≡ (r.known, r.bad)) }
{
    let mut known = Assembler::new(alloc);
    let bad = known.read_lines(text)?;
    Ok(Reading { known, bad })
}
