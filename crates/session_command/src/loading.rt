//! The units of a script's files.
ghost use Rattle.std.specs.Prelude.{◌≡◌, ◌≤◌, length, map, IfOk, IfErr, OnOk};
ghost use Rattle.orc_names.specs.Numbers.{KeepsNumbers};
ghost use Rattle.object_files.specs.Files.{AreLoaded, HasStopped};
ghost use Rattle.object_files.specs.Reads.{AreReadIn, use_of};
ghost use Rattle.object_files.specs.declared.error.LoadError.{LoadError};
ghost use Rattle.session_units.specs.Units.{meaning_of};
ghost use Rattle.answers.specs.Files.{file_answer};
ghost use Rattle.answers.specs.Reads.{AreReadFor};

use answers::{Answer, file_answer};
use object_files::load_files;
use orc_io::Files;
use orc_names::Names;
use session_script::FileTable;
use session_units::ObjectUnit;
use std::alloc::{AllocError, Global};

/// The names of a script's files, in order. They are numbered in 32 bits.
fn file_names(alloc: Global, files: &FileTable) -> Result<Vec<&str>, AllocError>
    ensures { IfOk result (λ names. map (λ w. w.now) names.items ≡ files.now) }
{
    let mut names = Vec::new(alloc);
    for place in 0..files.len() {
        let number = u32::try_from(place).map_err(|_| AllocError)?;
        names.push(files.name(number))?;
    }
    Ok(names)
}

/// A unit for each file of a script, in order; the names of their symbols are numbered with the script's.
pub(crate) fn load_units<F: Files>(
    alloc: Global,
    table: &FileTable,
    names: &mut Names,
    files: &mut F,
) -> Result<Vec<ObjectUnit>, Answer>
    ensures loaded { IfOk result (λ units. AreLoaded (F.holds files.old) table.now names.new (map meaning_of units.items)) }
    ensures stopped { IfErr result (λ answer. (e : LoadError) ×
        HasStopped (F.holds files.old) (F.faults files.old) (F.faults files.new) table.now e × (answer ≡ file_answer e)) }
    ensures read { OnOk result (AreReadIn table.now
        (use_of (F.reads files.old) (F.faults files.old)) (use_of (F.reads files.new) (F.faults files.new))) }
    ensures read_for { IfErr result (AreReadFor table.now
        (use_of (F.reads files.old) (F.faults files.old)) (use_of (F.reads files.new) (F.faults files.new))) }
    ensures older { KeepsNumbers names.old names.new }
    ensures counted { F.faults files.old ≤ F.faults files.new }
    ensures same { F.holds files.new ≡ F.holds files.old }
{
    let Ok(file_names) = file_names(alloc, table) else {
        return Err(Answer::NoMemory);
    };
    match load_files(alloc, files, file_names.as_slice(), names) {
        Ok(units) => Ok(units),
        Err(why) => Err(file_answer(why)),
    }
}
