//! The memory is copied.
ghost use Rattle.std.specs.Prelude.{IfOk, IfErr};
ghost use Rattle.turn_lock.specs.Handles.{view, turn_id, IsReady};
ghost use Rattle.link_worker.specs.Works.{IsFree};
ghost use Rattle.link_worker.specs.Copies.{CopiesAt, IsStoppedAt};

use code_memory::Image;
use execution_session::Imaged;
use orc_ids::Stop;
use orc_io::Notify;
use session_model::UnitKind;
use shared_session::{CopyMemory, Pass, Shared};
use std::sync::Wait;

/// Copies the memory.
pub fn copy_memory<U: UnitKind, N: Notify, R: Wait, const JMAX: usize>(
    rt: &R,
    shared: &Shared<U, N, JMAX>,
    pass: &mut Pass<U, N, JMAX>,
) -> Result<Image, Stop>
    requires ready { IsReady (turn_id shared.now) pass.old }
    ensures ready { IsReady (turn_id shared.now) pass.new }
    ensures free { IsFree U.meaning (view pass.old) → IsFree U.meaning (view pass.new) }
    ensures copied { IfOk result (CopiesAt U.meaning (view pass.old) (view pass.new)) }
    ensures stopped { IfErr result (IsStoppedAt U.meaning JMAX (view pass.old) (view pass.new)) }
{
    let Imaged { answer, image } = shared.perform(rt, pass, CopyMemory);
    answer?;
    match image {
        Some(image) => Ok(image),
        None => unreachable!(),
    }
}
