ghost use Rattle.std.specs.Prelude.{◌≤◌, length, IfOk};
ghost use Rattle.code_memory.specs.Mapped.{byte_at};
ghost use Rattle.exec_run.specs.Run.{RunsTo, OnlyRunsTo};

use crate::machine::Machine;
use crate::ran::Ran;
use code_memory::Image;
use orc_ids::Bytes;
use std::alloc::{AllocError, Global};

/// Runs the code at `pc` on the image and a stack of its own, with up to eight arguments in a0 to
/// a7, for at most `fuel` instructions. What the run writes is its own: the image stays as it is.
pub fn run(
    alloc: Global,
    image: &Image,
    pc: u64,
    args: &[u64],
    fuel: u64,
) -> Result<Ran, AllocError>
    requires { length args.now ≤ 8 }
    ensures ran { IfOk result (λ ran. RunsTo (byte_at image.now) pc args.now fuel ran.end ran.output) }
    ensures only { IfOk result (λ ran. OnlyRunsTo (byte_at image.now) pc args.now fuel ran.end ran.output) }
{
    let mut machine = Machine::new(alloc, image, pc, args)?;
    let end = machine.run(fuel)?;
    Ok(Ran {
        end,
        output: Bytes::from_vec(machine.into_output()),
    })
}
