//! What calls are made of.
ghost use Rattle.std.specs.Prelude.{◌≡◌, ◌<◌, ◌≤◌, ◌*◌, length, map, IfOk};
ghost use Rattle.session_script.specs.declared.limits.TheConstants.{SIZE_LIMIT};
ghost use Rattle.session_units.specs.Names.{NamesDiffer};
ghost use Rattle.session_units.specs.Others.{absolutes_meaning};
ghost use Rattle.session_units.specs.Units.{meaning_of};
ghost use Rattle.script_plan.specs.Asked.{unit_of_file};

use orc_ids::{Items, NameId, UnitName};
use session_model::UnitKind;
use session_units::ObjectUnit;
use std::alloc::{AllocError, Global};

/// Another handle to the unit of a file.
pub(crate) fn unit_of_file(
    alloc: Global,
    units: &[ObjectUnit],
    file: u32,
) -> Result<ObjectUnit, AllocError>
    requires { file < length units.now }
    ensures { IfOk result (λ unit. meaning_of unit ≡ unit_of_file (map meaning_of units.now) file) }
{
    units[file as usize].share(alloc)
}

/// The unit of absolute symbols. A script is too short for more of them than a session has instances.
pub(crate) fn unit_of_symbols(
    alloc: Global,
    name: UnitName,
    symbols: &[(NameId, u64)],
) -> Result<ObjectUnit, AllocError>
    requires differ { NamesDiffer symbols.now }
    requires few { 4 * length symbols.now ≤ SIZE_LIMIT }
    ensures { IfOk result (λ unit. meaning_of unit ≡ absolutes_meaning name symbols.now) }
{
    ObjectUnit::of_absolutes(alloc, name, symbols)
}

/// A copy of a list.
pub(crate) fn copy_of<T: Copy>(alloc: Global, list: &Items<T>) -> Result<Items<T>, AllocError>
    ensures { IfOk result (λ copy. copy ≡ list.now) }
{
    Ok(Items::from_vec(Vec::from_slice(alloc, list.as_slice())?))
}
