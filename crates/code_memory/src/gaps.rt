ghost use Rattle.std.specs.Prelude.{◌≡◌, ◌^◌, ◌<◌, ◌≤◌, ◌++◌, ◌+◌, take, drop, slice_index_or, OnOk};
ghost use Rattle.std.specs.List.Sorted.{IsNonDecreasingBy};
ghost use Rattle.std.specs.VecDeque.{deque_len, deque_capacity};
ghost use Rattle.code_memory.specs.Gaps.{between, base_in, first_fit, with_rest, ending_below, start_to, rest_to, end_from, rest_from};

use orc_ids::{CODE_END, Shape};
use std::alloc::AllocError;
use std::collections::VecDeque;

/// Addresses between two ranges that are taken, of which there is at least one.
#[derive(Clone, Copy)]
pub(crate) struct Gap {
    pub(crate) start: u64,
    pub(crate) end: u64,
}

impl Gap {
    /// The lowest base that a range of the shape can have in the gap.
    fn base_for(self, shape: Shape) -> Option<u64>
        requires { 0 < shape.align }
        ensures { result ≡ base_in shape self }
    {
        let base = self.start.checked_next_multiple_of(shape.align)?;
        let end = base.checked_add(shape.need)?;
        if self.end < end { None } else { Some(base) }
    }
}

/// The first gap that the shape fits into, and its base there. The number after those of the gaps
/// stands for what is above the last range.
pub(crate) fn find_fit(gaps: &VecDeque<Gap>, last: u64, shape: Shape) -> Option<(usize, u64)>
    requires { 0 < shape.align }
    ensures { result ≡ first_fit shape 0 (with_rest gaps.now.items last) }
{
    for at in 0..gaps.len() {
        if let Some(base) = gaps[at].base_for(shape) {
            return Some((at, base));
        }
    }
    let above = Gap {
        start: last,
        end: CODE_END,
    };
    match above.base_for(shape) {
        Some(base) => Some((gaps.len(), base)),
        None => None,
    }
}

/// How many gaps end below an address.
pub(crate) fn count_below(gaps: &VecDeque<Gap>, at: u64) -> usize
    requires { IsNonDecreasingBy (λ g. g.end) gaps.now.items }
    ensures count { result ≡ ending_below at gaps.now.items }
    ensures within { result ≤ deque_len gaps.now }
{
    gaps.partition_point(|gap| gap.end < at)
}

/// Makes room for the gaps of one placement more than there are, and for the gap that each of them
/// leaves; so much that this is seldom needed.
pub(crate) fn make_room(gaps: &mut VecDeque<Gap>, placed: usize) -> Result<(), AllocError>
    requires { placed < 2 ^ 62 }
    ensures items { gaps.new.items ≡ gaps.old.items }
    ensures len { deque_len gaps.new ≡ deque_len gaps.old }
    ensures capacity { deque_capacity gaps.old ≤ deque_capacity gaps.new }
    ensures room { OnOk result (placed + 1 < deque_capacity gaps.new) }
{
    if placed + 1 < gaps.capacity() {
        return Ok(());
    }
    gaps.reserve(2 * placed + 2)
}

/// Puts the gap between two addresses before the gap number `at`, if there is one; takes no memory.
pub(crate) fn add_gap(gaps: &mut VecDeque<Gap>, at: usize, start: u64, end: u64)
    requires at { at ≤ deque_len gaps.old }
    requires room { deque_len gaps.old < deque_capacity gaps.old }
    ensures items { gaps.new.items ≡ take at gaps.old.items ++ (between start end ++ drop at gaps.old.items) }
    ensures capacity { deque_capacity gaps.old ≤ deque_capacity gaps.new }
{
    if start < end {
        let _ = gaps.insert(at, Gap { start, end });
    }
}

/// Leaves of the gap number `at` what is above `start`, in its place; the answer is the gap as it was.
pub(crate) fn raise_start(gaps: &mut VecDeque<Gap>, at: usize, start: u64) -> Gap
    requires { at < deque_len gaps.old }
    ensures gap { result ≡ slice_index_or gaps.old.items at result }
    ensures items { gaps.new.items ≡ take at gaps.old.items ++ (between start result.end ++ drop (at + 1) gaps.old.items) }
    ensures at { at ≤ deque_len gaps.new }
    ensures len { deque_len gaps.new ≤ deque_len gaps.old }
    ensures capacity { deque_capacity gaps.new ≡ deque_capacity gaps.old }
{
    let gap = gaps[at];
    if start < gap.end {
        gaps[at] = Gap {
            start,
            end: gap.end,
        };
        return gap;
    }
    let _ = gaps.remove(at);
    gap
}

/// Takes out the gap number `at` if it ends at `end`, and tells where it started; else `end`.
pub(crate) fn take_ending(gaps: &mut VecDeque<Gap>, at: usize, end: u64) -> u64
    requires { at ≤ deque_len gaps.old }
    ensures start { result ≡ start_to end (drop at gaps.old.items) }
    ensures items { gaps.new.items ≡ take at gaps.old.items ++ rest_to end (drop at gaps.old.items) }
    ensures at { at ≤ deque_len gaps.new }
    ensures len { deque_len gaps.new ≤ deque_len gaps.old }
    ensures capacity { deque_capacity gaps.new ≡ deque_capacity gaps.old }
{
    match gaps.get(at) {
        Some(gap) if gap.end == end => {
            let start = gap.start;
            let _ = gaps.remove(at);
            start
        }
        _ => end,
    }
}

/// Takes out the gap number `at` if it starts at `start`, and tells where it ended; else `start`.
pub(crate) fn take_starting(gaps: &mut VecDeque<Gap>, at: usize, start: u64) -> u64
    requires { at ≤ deque_len gaps.old }
    ensures end { result ≡ end_from start (drop at gaps.old.items) }
    ensures items { gaps.new.items ≡ take at gaps.old.items ++ rest_from start (drop at gaps.old.items) }
    ensures at { at ≤ deque_len gaps.new }
    ensures len { deque_len gaps.new ≤ deque_len gaps.old }
    ensures capacity { deque_capacity gaps.new ≡ deque_capacity gaps.old }
{
    match gaps.get(at) {
        Some(gap) if gap.start == start => {
            let end = gap.end;
            let _ = gaps.remove(at);
            end
        }
        _ => start,
    }
}
