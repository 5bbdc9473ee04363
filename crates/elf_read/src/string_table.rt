//! String tables.
ghost use Rattle.std.specs.Prelude.{◌≡◌, ℕ, ◌==◌, ◌<◌, length, position, take, drop, IfOk, IfSome, MatchOption, Some, None};
ghost use Rattle.elf_read.specs.File.{contents};
ghost use Rattle.elf_read.specs.Index.{AreEnds, IsEnd, HasNoEnd};
ghost use Rattle.elf_read.specs.Sections.{text_in};

use crate::fields::SectionHeader;
use std::alloc::{AllocError, Global};
use std::marker::Model;

/// The bytes from a place on; none from a place past the end.
pub(crate) fn bytes_from(bytes: &[u8], at: u64) -> &[u8]
    ensures { result.now ≡ drop at bytes.now }
{
    &bytes[at.min(bytes.len() as u64) as usize..]
}

/// The first bytes, at most so many.
pub(crate) fn first_bytes(bytes: &[u8], count: u64) -> &[u8]
    ensures { result.now ≡ take count bytes.now }
{
    &bytes[..count.min(bytes.len() as u64) as usize]
}

/// The bytes of a section, as far as they lie in the file.
pub(crate) fn section_bytes<'a>(bytes: &'a [u8], section: &SectionHeader) -> &'a [u8]
    ensures { result.now ≡ contents bytes.now section.now }
{
    first_bytes(bytes_from(bytes, section.offset), section.size)
}

/// How many bytes a block of a string table has.
const BLOCK: usize = 64;

/// A string table, and for each block of it where the first zero byte at or past its start is, up to
/// the last zero byte. So the end of a text is found by a look at one block, and a text that many
/// names share isn't gone over for each of them. Contracts see the bytes.
#[derive(Drop)]
pub(crate) struct StringTable<'a> {
    bytes: &'a [u8],
    ends: Vec<usize>,
}

impl<'a> Model for StringTable<'a> {
    ghost use Rattle.std.specs.Prelude.{ℕ, List, length};
    ghost use Rattle.elf_read.specs.Index.{AreEnds};

    ghost Value = { List ℕ };

    ghost view = { λ t. t.bytes.now };

    ghost invariant = { λ t. AreEnds t.bytes.now (length t.bytes.now) t.ends.items };
}

fn ends_of(alloc: Global, bytes: &[u8]) -> Result<Vec<usize>, AllocError>
    ensures { IfOk result (λ ends. AreEnds bytes.now (length bytes.now) ends.items) }
{
    let mut ends = Vec::new(alloc);
    for (i, byte) in bytes.iter().enumerate() {
        if *byte == 0 && ends.len() <= i / BLOCK {
            ends.resize(i / BLOCK + 1, i)?;
        }
    }
    Ok(ends)
}

/// The place of the first zero byte.
fn first_zero(bytes: &[u8]) -> Option<usize>
    ensures exact { result ≡ position (λ b. b == 0) bytes.now }
    ensures inside { IfSome result (λ n. n < length bytes.now) }
{
    bytes.iter().position(|byte| *byte == 0)
}

impl<'a> StringTable<'a> {
    /// Finds the ends of a table's texts. The work is linear in the bytes.
    pub fn new(alloc: Global, bytes: &'a [u8]) -> Result<StringTable<'a>, AllocError>
        ensures { IfOk result (λ table. table ≡ bytes.now) }
    {
        let ends = ends_of(alloc, bytes)?;
        Ok(StringTable { bytes, ends })
    }

    /// The place of the first zero byte from a place on.
    fn end(&self, at: usize) -> Option<usize>
        ensures { MatchOption result (HasNoEnd self.now at) (λ end. IsEnd self.now at end) }
    {
        let rest = BLOCK - at % BLOCK;
        match first_zero(first_bytes(bytes_from(self.bytes, at as u64), rest as u64)) {
            Some(n) => Some(at + n),
            None => self.ends.get(at / BLOCK + 1).copied(),
        }
    }

    /// The bytes from a place on before the first zero byte; none where there is no zero byte.
    pub fn text(&self, at: usize) -> Option<&'a [u8]>
        ensures { MatchOption result (text_in (drop at self.now) ≡ None) (λ text. text_in (drop at self.now) ≡ Some text.now) }
    {
        let end = self.end(at)?;
        Some(&self.bytes[at..end])
    }
}
