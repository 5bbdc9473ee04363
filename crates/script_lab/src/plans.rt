//! Random plans.
ghost use Rattle.std.specs.Prelude.{◌≤◌, length, IfOk};
ghost use Rattle.script_lab.specs.Plans.{IsRunnable};

use crate::clients::Maker;
use crate::note::LabNote;
use crate::random::Random;
use crate::set_up::make_set_up;
use crate::unit::LabUnit;
use script_model::Plan;
use std::alloc::{AllocError, Global};

/// A plan, and how many notes its lines have.
#[derive(Drop)]
pub struct Made {
    pub plan: Plan<LabUnit, LabNote>,
    pub notes: u32,
}

/// A random plan of one to three clients.
pub fn make_plan(alloc: Global, random: &mut Random) -> Result<Made, AllocError>
    ensures can { IfOk result (λ made. IsRunnable made.plan) }
    ensures few { IfOk result (λ made. length made.plan.clients.items ≤ 3) }
{
    let mut maker = Maker {
        set_up: make_set_up(alloc, random)?,
        notes: 0,
        sought: None,
    };
    let mut clients = Vec::new(alloc);
    for _ in 0..random.below(3) + 1 {
        clients.push(maker.lines(alloc, random)?)?;
    }
    let Maker { set_up, notes, .. } = maker;
    Ok(Made {
        plan: Plan {
            set_up: set_up.calls,
            clients,
        },
        notes,
    })
}
