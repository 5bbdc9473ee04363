ghost use Rattle.std.specs.Prelude.{◌≡◌, ◌-◌, None, All, length, map, IfOk};
ghost use Rattle.orc_io.specs.Numbers.{AreNumberedFrom};
ghost use Rattle.script_model.specs.Plans.{CanRun, script_of};
ghost use Rattle.session_units.specs.Units.{meaning_of};
ghost use Rattle.script_plan.specs.Asked.{asked_script};
ghost use Rattle.script_plan.specs.Notes.{AreHandedOut};
ghost use Rattle.session_script.specs.WellFormed.{IsWellFormed};

use crate::clients::plan_clients;
use crate::set_up::plan_set_up;
use orc_io::Notify;
use script_model::Plan;
use session_script::Script;
use session_units::ObjectUnit;
use std::alloc::{AllocError, Global};

/// What a script asks for with its units made, and the notes that no watch line takes.
#[derive(Drop)]
pub struct Planned<N: Notify> {
    pub plan: Plan<ObjectUnit, N>,
    pub unused: Vec<N>,
}

/// The plan of a script, given a unit for each of its files, in order. Each note goes to the watch line that has
/// its number.
pub fn plan_of<N: Notify>(
    alloc: Global,
    script: &Script,
    units: &[ObjectUnit],
    notes: Vec<N>,
) -> Result<Planned<N>, AllocError>
    requires well { IsWellFormed (length notes.items) script.now }
    requires files { length units.now ≡ length script.now.files }
    requires unheard { All (λ n. N.heard n ≡ None) notes.items }
    requires numbered { AreNumberedFrom N.number 0 notes.items }
    ensures asked { IfOk result (λ p. script_of meaning_of p.plan ≡ asked_script (map meaning_of units.now) script.now) }
    ensures can { All (λ unit. (meaning_of unit).source ≡ None) units.now → IfOk result (λ p. CanRun meaning_of N.heard N.number p.plan) }
    ensures notes { IfOk result (λ p. AreHandedOut notes.items p.plan p.unused.items) }
    ensures unheard { IfOk result (λ p. All (λ n. N.heard n ≡ None) p.unused.items) }
    ensures numbered { IfOk result (λ p. AreNumberedFrom N.number (length notes.items - length p.unused.items) p.unused.items) }
{
    let set_up = plan_set_up(alloc, units, script.setup.as_slice())?;
    let mut notes = notes.into_iter();
    let clients = plan_clients(alloc, units, script.clients.as_slice(), &mut notes)?;
    let unused = notes.collect(alloc)?;
    Ok(Planned {
        plan: Plan { set_up, clients },
        unused,
    })
}
