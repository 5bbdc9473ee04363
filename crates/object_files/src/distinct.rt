ghost use Rattle.std.specs.Prelude.{◌≡◌, map, IfOk};
ghost use Rattle.object_files.specs.Files.{distinct, AreNumbered};

use indexmap::IndexSet;
use orc_names::NameHasher;
use std::alloc::{AllocError, Global};

/// The files that some words name, each once, and for each word the number of its file.
#[derive(Drop)]
pub struct Distinct<'a> {
    /// In the order of first mention.
    pub files: Vec<&'a str>,
    pub numbers: Vec<u32>,
}

/// The distinct names of a list in the order of first mention, and for each word the number of its
/// file, which counts from 0. The names are hashed, so that the work is linear in the words.
///
/// There are at most 2^32 files; where there is one more, the answer is that of memory.
pub fn distinct_files<'a>(
    alloc: Global,
    hasher: NameHasher,
    words: &[&'a str],
) -> Result<Distinct<'a>, AllocError>
    ensures files { IfOk result (λ d. map (λ w. w.now) d.files.items ≡ distinct (map (λ w. w.now) words.now)) }
    ensures numbered { IfOk result (λ d. AreNumbered (map (λ w. w.now) d.files.items) (map (λ w. w.now) words.now) d.numbers.items) }
{
    let mut seen = IndexSet::with_hasher(alloc, hasher);
    let mut numbers = Vec::new(alloc);
    for word in words {
        let (place, _) = seen.insert_full(*word)?;
        numbers.push(number_of(place)?)?;
    }
    Ok(Distinct {
        files: seen.as_slice().to_vec(alloc)?,
        numbers,
    })
}

/// A place as the number of a file.
pub(crate) fn number_of(place: usize) -> Result<u32, AllocError>
    ensures { IfOk result (λ number. number ≡ place) }
{
    match u32::try_from(place) {
        Ok(number) => Ok(number),
        Err(_) => Err(AllocError),
    }
}
