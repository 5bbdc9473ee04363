ghost use Rattle.std.specs.Prelude.{◌≡◌, ◌++◌, OnOk};
ghost use Rattle.exec_run.specs.RunEnds.{cause_text, run_end_text};

use crate::RunEnd;
use rv_hart::Cause;
use std::alloc::{AllocError, Global};
use text_parts::{put, put_at, put_numbered};

/// How a run ended.
pub fn put_run_end(alloc: Global, out: &mut Vec<u8>, end: RunEnd) -> Result<(), AllocError>
    ensures { OnOk result (out.new.items ≡ out.old.items ++ run_end_text end) }
{
    match end {
        RunEnd::Exited(code) => put_numbered(out, b"exited ", code),
        RunEnd::Trap(pc, cause) => {
            put_at(alloc, out, b"trap ", pc)?;
            put(out, b" ")?;
            put_cause(alloc, out, cause)
        }
        RunEnd::OutOfFuel => put(out, b"out of fuel"),
        RunEnd::OutputFull => put(out, b"output full"),
    }
}

fn put_cause(alloc: Global, out: &mut Vec<u8>, cause: Cause) -> Result<(), AllocError>
    ensures { OnOk result (out.new.items ≡ out.old.items ++ cause_text cause) }
{
    match cause {
        Cause::Fetch => put(out, b"fetch"),
        Cause::Illegal(word) => put_at(alloc, out, b"illegal ", u64::from(word)),
        Cause::Misaligned(at) => put_at(alloc, out, b"misaligned ", at),
        Cause::Load(at) => put_at(alloc, out, b"load ", at),
        Cause::Store(at) => put_at(alloc, out, b"store ", at),
        Cause::Break => put(out, b"break"),
    }
}
