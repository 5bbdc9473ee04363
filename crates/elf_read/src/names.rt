ghost use Rattle.std.specs.Prelude.{◌≡◌};
ghost use Rattle.elf_read.specs.Choice.{Agrees, first_below};
ghost use Rattle.elf_read.specs.Sections.{name_refusal};

use crate::error::ElfError;
use crate::table::Table;

#[tactic(auto, unfolding(crate::specs::Sections::name_refusal))]
fn check_name(table: &Table, i: u32) -> Result<(), ElfError>
    ensures { Agrees result (name_refusal table.now i) }
{
    if table.section(i).is_kept() && table.section_name(i).is_none() {
        return Err(ElfError::BadTable(i));
    }
    Ok(())
}

/// The first kept section whose name is not in the name table.
pub(crate) fn check_names(table: &Table) -> Result<(), ElfError>
    ensures { Agrees result (first_below table.now.count (name_refusal table.now)) }
{
    for i in 0..table.count() {
        check_name(table, i)?;
    }
    Ok(())
}
