ghost use Rattle.std.specs.Prelude.{◌≡◌, ◌↔◌, ◌++◌, IsTrue, IsSome, OnOk, IsSomeAnd};
ghost use Rattle.code_memory.specs.Mapped.{byte_at};
ghost use Rattle.exec_run.specs.Bytes.{bytes_from};

use crate::memory::RunMemory;
use std::alloc::AllocError;

/// Whether each of `count` bytes from the address on is mapped, range by range.
pub(crate) fn has_bytes(memory: &RunMemory<'_>, from: u64, count: u64) -> bool
    ensures { IsTrue result ↔ IsSome (bytes_from (byte_at memory.now) from count) }
{
    let mut at = from;
    let mut left = count;
    while left > 0 {
        let Some(rest) = memory.data_from(at) else {
            return false;
        };
        let here = (rest.len() as u64).min(left);
        at += here;
        left -= here;
    }
    true
}

/// Adds `count` mapped bytes from the address on at the end of `output`, range by range.
pub(crate) fn append(
    memory: &RunMemory<'_>,
    from: u64,
    count: u64,
    output: &mut Vec<u8>,
) -> Result<(), AllocError>
    requires { IsSome (bytes_from (byte_at memory.now) from count) }
    ensures { OnOk result (IsSomeAnd (bytes_from (byte_at memory.now) from count) (λ bytes. output.new.items ≡ output.old.items ++ bytes)) }
{
    let mut at = from;
    let mut left = count;
    while left > 0 {
        let Some(rest) = memory.data_from(at) else {
            return Ok(());
        };
        let here = (rest.len() as u64).min(left);
        output.extend_from_slice(&rest[..here as usize])?;
        at += here;
        left -= here;
    }
    Ok(())
}
