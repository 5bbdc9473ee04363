//! The program that the words of a run name: the objects of its files.
ghost use Rattle.std.specs.Prelude.{◌≡◌, ◌<◌, ◌≤◌, length, map, slice_get, codes, All, Some, IfOk, IfErr, OnOk};
ghost use Rattle.session_units.specs.Units.{meaning_of};
ghost use Rattle.command_line.specs.Words.{request};
ghost use Rattle.object_files.specs.Files.{AreNumbered, HasStopped, distinct};
ghost use Rattle.object_files.specs.Reads.{AreReadIn, AreReadUntil, use_of};
ghost use Rattle.orc_cli.specs.Loading.{AreShared, IsLoaded};

use command_line::RunWords;
use linked_program::Program;
use object_files::{Distinct, LoadError, distinct_files, load_files};
use orc_ids::NameId;
use orc_io::Files;
use orc_names::{NameError, NameHasher, Names};
use session_model::UnitKind;
use session_units::ObjectUnit;
use std::alloc::{AllocError, Global};

/// The name of the dylib that objects are defined in.
const MAIN: &[u8] = b"main";

/// A program that can be linked, the texts of its names, and the number of the file of each word.
#[derive(Drop)]
pub(crate) struct Loaded {
    pub(crate) names: Names,
    pub(crate) program: Program<ObjectUnit>,
    pub(crate) files: Vec<u32>,
}

/// The numbers of the dylib's name and of the entry's. Neither is longer than a name may be, so that
/// memory alone may be wanting.
fn number_names(names: &mut Names, entry: &str) -> Result<(NameId, NameId), NameError>
    ensures main { IfOk result (λ n. slice_get names.new n.0.0 ≡ Some (codes "main")) }
    ensures entry { IfOk result (λ n. slice_get names.new n.1.0 ≡ Some entry.now) }
{
    let main = names.intern(MAIN)?;
    let entry = names.intern(entry.as_bytes())?;
    Ok((main, entry))
}

/// A unit for each word: a share of its file's.
fn share_units(
    alloc: Global,
    units: &[ObjectUnit],
    files: &[u32],
) -> Result<Vec<ObjectUnit>, AllocError>
    requires { All (λ file. file < length units.now) files.now }
    ensures { IfOk result (λ shared. AreShared (map meaning_of units.now) files.now (map meaning_of shared.items)) }
{
    let mut shared = Vec::new(alloc);
    for file in files {
        shared.push(units[*file as usize].share(alloc)?)?;
    }
    Ok(shared)
}

/// Reads the files of a run, and makes its program.
pub(crate) fn load<F: Files>(
    alloc: Global,
    hasher: NameHasher,
    words: &RunWords<'_>,
    files: &mut F,
) -> Result<Loaded, LoadError>
    ensures loaded { IfOk result (λ l. IsLoaded (F.holds files.old) (request words.now) l) }
    ensures stopped { IfErr result (λ e.
        HasStopped (F.holds files.old) (F.faults files.old) (F.faults files.new) (distinct (request words.now).files) e) }
    ensures read { OnOk result (AreReadIn (distinct (request words.now).files)
        (use_of (F.reads files.old) (F.faults files.old)) (use_of (F.reads files.new) (F.faults files.new))) }
    ensures read_until { IfErr result (AreReadUntil (distinct (request words.now).files)
        (use_of (F.reads files.old) (F.faults files.old)) (use_of (F.reads files.new) (F.faults files.new))) }
    ensures counted { F.faults files.old ≤ F.faults files.new }
    ensures same { F.holds files.new ≡ F.holds files.old }
{
    let Distinct {
        files: file_names,
        numbers,
    } = distinct_files(alloc, hasher, words.files.as_slice())?;
    let mut names = Names::with_hasher(alloc, hasher);
    let Ok((main, entry)) = number_names(&mut names, words.entry) else {
        return Err(LoadError::NoMemory);
    };
    let units = load_files(alloc, files, file_names.as_slice(), &mut names)?;
    let units = share_units(alloc, units.as_slice(), numbers.as_slice())?;
    Ok(Loaded {
        names,
        program: Program { main, entry, units },
        files: numbers,
    })
}
