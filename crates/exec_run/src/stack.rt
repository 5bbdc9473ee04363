ghost use Rattle.std.specs.Prelude.{◌≡◌, ◌-◌, ◌≤◌, ◌<◌, ◌↔◌, IsTrue, IfOk, vec_len, vec_capacity, length, slice_set};
ghost use Rattle.std.specs.Bool.{OnTrue, OnFalse};
ghost use Rattle.exec_run.specs.declared.host.TheConstants.{STACK_START, STACK_END, STACK_SIZE};
ghost use Rattle.exec_run.specs.Regions.{filled, HasRoom, AreZeros, IsFrom, IsPutAt};

use crate::host::{STACK_END, STACK_SIZE, STACK_START};
use crate::number::put;
use std::alloc::{AllocError, Global};
use std::marker::Model;

/// The fewest bytes that a stack keeps once it was written.
const FIRST: usize = 4096;

/// What is read where nothing was written.
const ZEROS: [u8; 8] = [0; 8];

/// The stack of a run, of which the bytes from the lowest that was written up to its end are kept.
/// There is room for all of them from the start. Contracts see all bytes of the stack.
#[derive(Drop)]
pub(crate) struct Stack {
    bytes: Vec<u8>,
}

impl Model for Stack {
    ghost use Rattle.std.specs.Prelude.{ℕ, List, vec_capacity};
    ghost use Rattle.exec_run.specs.declared.host.TheConstants.{STACK_SIZE};
    ghost use Rattle.exec_run.specs.Regions.{filled, HasRoom};

    ghost Value = { List ℕ };

    ghost view = { λ s. filled STACK_SIZE s.bytes.items };

    ghost invariant = { λ s. HasRoom s.bytes.items (vec_capacity s.bytes) };
}

/// Whether the stack has the address.
#[inline(always)]
pub(crate) fn is_on_stack(at: u64) -> bool
    ensures { IsTrue result ↔ ((STACK_START ≤ at) × (at < STACK_END)) }
{
    STACK_START <= at && at < STACK_END
}

impl Stack {
    /// A stack of zero bytes; writes none of them.
    pub(crate) fn new(alloc: Global) -> Result<Stack, AllocError>
        ensures { IfOk result (λ stack. AreZeros stack STACK_SIZE) }
    {
        Ok(Stack {
            bytes: Vec::with_capacity(alloc, STACK_SIZE as usize)?,
        })
    }

    /// Bytes from the address on: up to the end, or zero bytes where nothing was written.
    #[inline(always)]
    pub(crate) fn bytes_from(&self, at: u64) -> &[u8]
        requires low { STACK_START ≤ at }
        requires high { at < STACK_END }
        ensures { IsFrom self.now (at - STACK_START) result.now }
    {
        let low = STACK_END - self.bytes.len() as u64;
        if low <= at {
            return &self.bytes[(at - low) as usize..];
        }
        zeros(low - at)
    }

    /// Writes a value, unless a byte there isn't kept.
    #[inline(always)]
    pub(crate) fn put(&mut self, at: u64, width: u8, value: u64) -> bool
        requires low { STACK_START ≤ at }
        requires high { at < STACK_END }
        ensures done { OnTrue result (IsPutAt self.old self.new (at - STACK_START) width value) }
        ensures kept { OnFalse result (self.new ≡ self.old) }
        ensures long { length self.new ≡ STACK_SIZE }
    {
        let low = STACK_END - self.bytes.len() as u64;
        if at < low {
            return false;
        }
        if STACK_END - at < u64::from(width) {
            return false;
        }
        put(&mut self.bytes, (at - low) as usize, width, value);
        true
    }

    /// Writes a byte.
    pub(crate) fn set(&mut self, at: u64, byte: u8)
        requires low { STACK_START ≤ at }
        requires high { at < STACK_END }
        ensures done { self.new ≡ slice_set self.old (at - STACK_START) byte }
        ensures long { length self.new ≡ STACK_SIZE }
    {
        reach(&mut self.bytes, (STACK_END - at) as usize);
        let low = STACK_END - self.bytes.len() as u64;
        self.bytes[(at - low) as usize] = byte;
    }
}

/// Up to eight zero bytes.
fn zeros(count: u64) -> &'static [u8]
    requires { 0 < count }
    ensures some { (0 < length result.now) × (length result.now ≤ count) }
    ensures zero { AreZeros result.now (length result.now) }
{
    &ZEROS[..count.min(8) as usize]
}

/// Lengthens the bytes at the end of a stack to `count` at least, with zero bytes before them; takes
/// no memory.
fn reach(bytes: &mut Vec<u8>, count: usize)
    requires within { count ≤ STACK_SIZE }
    requires room { HasRoom bytes.old.items (vec_capacity bytes.old) }
    ensures same { filled STACK_SIZE bytes.new.items ≡ filled STACK_SIZE bytes.old.items }
    ensures room { HasRoom bytes.new.items (vec_capacity bytes.new) }
    ensures reached { count ≤ length bytes.new.items }
{
    let kept = bytes.len();
    if count <= kept {
        return;
    }
    let wanted = count.max(2 * kept).max(FIRST).min(STACK_SIZE as usize);
    let _ = bytes.resize(wanted, 0);
    bytes.rotate_right(wanted - kept);
}
