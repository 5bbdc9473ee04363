ghost use Rattle.std.specs.Prelude.{◌≡◌, ◌+◌, ◌<◌, ◌≤◌, ◌∷◌, [], length, map, IfOk, IfErr, OnOk};
ghost use Rattle.orc_names.specs.Numbers.{KeepsNumbers};
ghost use Rattle.session_units.specs.Units.{meaning_of};
ghost use Rattle.object_files.specs.Files.{AreLoaded, HasStopped};
ghost use Rattle.object_files.specs.Reads.{use_of, AreReadIn, AreReadUntil};
ghost use Rattle.object_files.specs.Steps.{IsTaken, IsNext, IsStoppedAt, IsReadFor};

use crate::distinct::number_of;
use crate::error::LoadError;
use crate::object::unit_of_bytes;
use orc_ids::Bytes;
use orc_io::{FileError, Files};
use orc_names::Names;
use session_units::ObjectUnit;
use std::alloc::Global;

/// The most bytes of all files together.
pub const TOTAL_LIMIT: usize = 256 * 1024 * 1024;

/// Reads the files of these distinct names, in order, and makes a unit of each, which has the number of
/// its file. The symbols' names are interned after those that the table has already.
///
/// A file that can't be read stops the load, and else one that has more than 16 MiB, then one that makes
/// the sum greater than 256 MiB, and then one whose bytes are refused. None after it is read, and no file twice. There are at most 2^32 files; where
/// there is one more, the answer is that of memory.
pub fn load_files<F: Files>(
    alloc: Global,
    files: &mut F,
    file_names: &[&str],
    names: &mut Names,
) -> Result<Vec<ObjectUnit>, LoadError>
    ensures loaded { IfOk result (λ units. AreLoaded (F.holds files.old) (map (λ w. w.now) file_names.now) names.new (map meaning_of units.items)) }
    ensures stopped { IfErr result (λ e. HasStopped (F.holds files.old) (F.faults files.old) (F.faults files.new) (map (λ w. w.now) file_names.now) e) }
    ensures read { OnOk result (AreReadIn (map (λ w. w.now) file_names.now)
        (use_of (F.reads files.old) (F.faults files.old)) (use_of (F.reads files.new) (F.faults files.new))) }
    ensures read_until { IfErr result (λ e. AreReadUntil (map (λ w. w.now) file_names.now)
        (use_of (F.reads files.old) (F.faults files.old)) (use_of (F.reads files.new) (F.faults files.new)) e) }
    ensures older { KeepsNumbers names.old names.new }
    ensures counted { F.faults files.old ≤ F.faults files.new }
    ensures same { F.holds files.new ≡ F.holds files.old }
{
    let mut units = Vec::new(alloc);
    let mut total = 0;
    for name in file_names {
        let number = number_of(units.len())?;
        let (unit, length) = next_unit(alloc, files, name, number, total, names)?;
        total += length;
        units.push(unit)?;
    }
    Ok(units)
}

/// The unit of the next file, and how many bytes it has. Those before it have `total` bytes.
fn next_unit<F: Files>(
    alloc: Global,
    files: &mut F,
    name: &str,
    number: u32,
    total: usize,
    names: &mut Names,
) -> Result<(ObjectUnit, usize), LoadError>
    requires { total ≤ TOTAL_LIMIT }
    ensures taken { IfOk result (λ next. IsTaken (F.holds files.old) names.new number total name.now (meaning_of next.0) next.1) }
    ensures stopped { IfErr result (λ e. IsStoppedAt (F.holds files.old) (F.faults files.old) (F.faults files.new) number total name.now e) }
    ensures older { KeepsNumbers names.old names.new }
    ensures read { OnOk result (AreReadIn (name.now ∷ [])
        (use_of (F.reads files.old) (F.faults files.old)) (use_of (F.reads files.new) (F.faults files.new))) }
    ensures read_for { IfErr result (λ e. IsReadFor name.now
        (use_of (F.reads files.old) (F.faults files.old)) (use_of (F.reads files.new) (F.faults files.new)) e) }
    ensures counted { F.faults files.old ≤ F.faults files.new }
    ensures same { F.holds files.new ≡ F.holds files.old }
{
    let bytes = read_next(alloc, files, name, number, total)?;
    let length = bytes.len();
    let unit = unit_of_bytes(alloc, bytes, number, names)?;
    Ok((unit, length))
}

/// The bytes of the next file, which isn't too long, nor are all up to it.
fn read_next<F: Files>(
    alloc: Global,
    files: &mut F,
    name: &str,
    number: u32,
    total: usize,
) -> Result<Bytes, LoadError>
    requires { total ≤ TOTAL_LIMIT }
    ensures next { IfOk result (λ bytes. IsNext (F.holds files.old) total name.now bytes) }
    ensures stopped { IfErr result (λ e. IsStoppedAt (F.holds files.old) (F.faults files.old) (F.faults files.new) number total name.now e) }
    ensures read { OnOk result (AreReadIn (name.now ∷ [])
        (use_of (F.reads files.old) (F.faults files.old)) (use_of (F.reads files.new) (F.faults files.new))) }
    ensures read_for { IfErr result (λ e. IsReadFor name.now
        (use_of (F.reads files.old) (F.faults files.old)) (use_of (F.reads files.new) (F.faults files.new)) e) }
    ensures counted { F.faults files.old ≤ F.faults files.new }
    ensures same { F.holds files.new ≡ F.holds files.old }
{
    match files.read_file(alloc, name) {
        Ok(bytes) => within_total(bytes, number, total),
        Err(FileError::TooLong) => Err(LoadError::TooLong(number)),
        Err(FileError::Failed) => Err(LoadError::Fault(number)),
        Err(FileError::NoMemory) => Err(LoadError::NoMemory),
    }
}

/// Bytes, unless those before them and they are too long together.
fn within_total(bytes: Bytes, number: u32, total: usize) -> Result<Bytes, LoadError>
    requires { total ≤ TOTAL_LIMIT }
    ensures same { IfOk result (λ kept. kept ≡ bytes) }
    ensures within { IfOk result (λ kept. total + length kept ≤ TOTAL_LIMIT) }
    ensures over { IfErr result (λ e. (e ≡ LoadError.TooLong number) × (TOTAL_LIMIT < total + length bytes)) }
{
    if bytes.len() > TOTAL_LIMIT - total {
        return Err(LoadError::TooLong(number));
    }
    Ok(bytes)
}
