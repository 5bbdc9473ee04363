ghost use Rattle.std.specs.Prelude.{◌≡◌, ◌≤◌, ◌<◌, ◌%◌, Some, None, IsSome, IfSome, IfNone, IfOk};
ghost use Rattle.std.specs.Bool.{OnTrue, OnFalse};
ghost use Rattle.rv_hart.specs.Fetched.{IsKnown};
ghost use Rattle.rv_hart.specs.Map.{read, stored, with_byte};
ghost use Rattle.code_memory.specs.Mapped.{byte_at};
ghost use Rattle.exec_run.specs.Decoded.{IsStill};
ghost use Rattle.exec_run.specs.Regions.{IsRest};
ghost use Rattle.exec_run.specs.Start.{with_stack};

use crate::access::{fetch, load, store};
use crate::decoded::Decoded;
use crate::find::{find, rest_from};
use crate::host::STACK_START;
use crate::ranges::Ranges;
use crate::stack::{Stack, is_on_stack};
use code_memory::Image;
use rv_hart::{Fetched, Memory};
use rv_insn::FlatInsn;
use std::alloc::{AllocError, Global};
use std::cell::Cell;
use std::marker::Model;

/// The memory of a run. Contracts see its ranges, the last of them the stack, and `byte_at` of them
/// as its map.
#[derive(Drop)]
pub(crate) struct RunMemory<'a> {
    ranges: Ranges<'a>,
    stack: Stack,
    code: Cell<usize>,
    data: Cell<usize>,
    decoded: Decoded,
}

impl<'a> Model for RunMemory<'a> {
    ghost use Rattle.std.specs.Prelude.{List};
    ghost use Rattle.code_memory.specs.declared.image.Segment.{Segment};

    ghost Value = { List Segment };

    ghost use Rattle.exec_run.specs.Decoded.{IsMemory};
    ghost use Rattle.exec_run.specs.Regions.{with_top};

    ghost view = { λ m. with_top m.ranges m.stack };

    ghost invariant = { λ m. IsMemory m.ranges m.stack m.decoded };
}

impl<'a> Memory for RunMemory<'a> {
    ghost bytes = { byte_at };

    #[inline(always)]
    fn load(&self, at: u64, width: u8) -> Option<u64> {
        load(self, at, width)
    }

    #[inline(always)]
    fn store(&mut self, at: u64, width: u8, value: u64) -> bool {
        store(self, at, width, value)
    }

    #[inline(always)]
    fn fetch(&self, at: u64) -> Option<u32> {
        fetch(self, at)
    }

    fn instruction(&mut self, at: u64) -> Fetched {
        let fetched = Fetched::of_word(fetch(self, at));
        if let Fetched::Known(insn) = fetched {
            self.keep(at, insn);
        }
        fetched
    }
}

impl<'a> RunMemory<'a> {
    /// The image, with a stack of zero bytes above it. All memory that stores need is reserved here.
    pub(crate) fn of_image(alloc: Global, image: &'a Image) -> Result<RunMemory<'a>, AllocError>
        ensures { IfOk result (λ memory. byte_at memory ≡ with_stack (byte_at image.now)) }
    {
        Ok(RunMemory {
            ranges: Ranges::of_image(alloc, image)?,
            stack: Stack::new(alloc)?,
            code: Cell::new(0),
            data: Cell::new(0),
            decoded: Decoded::new(alloc)?,
        })
    }

    /// The instruction at an address, where it is kept.
    #[inline(always)]
    pub(crate) fn kept(&self, at: u64) -> Option<FlatInsn>
        requires { at % 4 ≡ 0 }
        ensures { IfSome result (λ insn. IsStill self.now at insn) }
    {
        self.decoded.get(at)
    }

    /// Mapped bytes of data, from the address on.
    #[inline(always)]
    pub(crate) fn data_from(&self, at: u64) -> Option<&[u8]>
        ensures found { IfSome result (λ rest. IsRest self.now at rest.now) }
        ensures missing { IfNone result (byte_at self.now at ≡ None) }
    {
        if is_on_stack(at) {
            return Some(self.stack.bytes_from(at));
        }
        rest_from(&self.ranges, &self.data, at)
    }

    /// Mapped bytes of code, from the address on.
    #[inline(always)]
    pub(crate) fn code_from(&self, at: u64) -> Option<&[u8]>
        ensures found { IfSome result (λ rest. IsRest self.now at rest.now) }
        ensures missing { IfNone result (byte_at self.now at ≡ None) }
    {
        if let Some(rest) = rest_from(&self.ranges, &self.code, at) {
            return Some(rest);
        }
        if is_on_stack(at) {
            return Some(self.stack.bytes_from(at));
        }
        None
    }

    /// Writes a value where all of its bytes are in one range that was written before, or does
    /// nothing.
    #[inline(always)]
    pub(crate) fn put(&mut self, at: u64, width: u8, value: u64) -> bool
        requires { width ≤ 8 }
        ensures mapped { OnTrue result (IsSome (read (byte_at self.old) at width)) }
        ensures done { OnTrue result (byte_at self.new ≡ stored (byte_at self.old) at width value) }
        ensures kept { OnFalse result (self.new ≡ self.old) }
    {
        if is_on_stack(at) {
            return self.stack.put(at, width, value);
        }
        match find(&self.ranges, &self.data, at) {
            Some(k) => {
                if !self.ranges.put(k, at, width, value) {
                    return false;
                }
                self.decoded.forget(at, width);
                true
            }
            None => false,
        }
    }

    /// Writes a byte at a mapped address.
    pub(crate) fn set(&mut self, at: u64, byte: u8)
        requires { IsSome (byte_at self.old at) }
        ensures { byte_at self.new ≡ with_byte (byte_at self.old) at byte }
    {
        if is_on_stack(at) {
            self.stack.set(at, byte);
        } else if let Some(k) = find(&self.ranges, &self.data, at) {
            self.ranges.set(k, at, byte);
            self.decoded.forget(at, 1);
        }
    }

    /// Keeps the instruction at an address, unless it is on the stack.
    fn keep(&mut self, at: u64, insn: FlatInsn)
        requires aligned { at % 4 ≡ 0 }
        requires known { IsKnown (byte_at self.old) at insn }
        ensures { self.new ≡ self.old }
    {
        if at < STACK_START {
            self.decoded.keep(at, insn);
        }
    }
}
