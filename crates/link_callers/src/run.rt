//! What a caller of `exec_run` has of its contract: the function here is one call, and its clauses are
//! what the call promises. Its wrong bodies turn what was handed in or what came back, by another
//! address, one instruction or a lost byte, and the gate sees each refused; so the contract of a crate
//! whose own wrong bodies take too long for the gate is tried there all the same.

ghost use Rattle.std.specs.Prelude.{◌≤◌, length, IfOk};
ghost use Rattle.code_memory.specs.Mapped.{byte_at};
ghost use Rattle.exec_run.specs.Run.{RunsTo};

use code_memory::Image;
use exec_run::{Ran, RunEnd, run};
use orc_ids::Bytes;
use std::alloc::{AllocError, Global};

/// A run's end and output, as they came back.
pub fn ran(
    alloc: Global,
    image: &Image,
    pc: u64,
    args: &[u64],
    fuel: u64,
) -> Result<Ran, AllocError>
    requires { length args.now ≤ 8 }
    ensures { IfOk result (λ ran. RunsTo (byte_at image.now) pc args.now fuel ran.end ran.output) }
{
    let ran = run(alloc, image, pc, args, fuel)?;
    let end: RunEnd = ran.end;
    let output: Bytes = ran.output;
    Ok(Ran { end, output })
}
