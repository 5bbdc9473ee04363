ghost use Rattle.std.specs.Prelude.{◌≡◌, ◌<◌, ◌≤◌, ◌∷◌, [], ◌++◌, take, is_some, IfOk, OnOk, OnErr};
ghost use Rattle.std.specs.Ordering.{nat_cmp};
ghost use Rattle.std.specs.List.Sorted.{IsNonDecreasingBy};
ghost use Rattle.std.specs.VecDeque.{deque_len, deque_capacity};
ghost use Rattle.std.specs.Map.{remove_entry};
ghost use Rattle.std.specs.BTreeMap as tree;
ghost use Rattle.code_memory.specs.Kept.{keyed, KeepBases, GetsBase, IfAt, Fills, TakesOut, GivesBack, placements_from};
ghost use Rattle.code_memory.specs.LastImage.{based_below};
ghost use Rattle.code_memory.specs.Mapped.{AreSegments};
ghost use Rattle.code_memory.specs.Places.{deposits, AreLaidOut};

use crate::deposit::Deposit;
use crate::gaps::{Gap, add_gap, count_below, raise_start, take_ending, take_starting};
use crate::image::Segment;
use crate::placement::Placement;
use orc_ids::Bytes;
use std::alloc::{AllocError, Global};
use std::collections::{BTreeMap, HashMap, VecDeque};

/// Keeps a placement at its base, and the base at its unit.
pub(crate) fn record(
    placed: &mut BTreeMap<u64, Placement>,
    bases: &mut HashMap<u32, u64>,
    placement: Placement,
) -> Result<(), AllocError>
    ensures placed { OnOk result (placed.new.entries ≡ tree.insert_entry nat_cmp placed.old.entries placement.base placement) }
    ensures bases { OnOk result (GetsBase placement.unit.0 placement.base bases.old bases.new) }
    ensures err { OnErr result ((placed.new.entries ≡ placed.old.entries) × KeepBases bases.old bases.new) }
{
    let unit = placement.unit.0;
    let base = placement.base;
    bases.reserve(1)?;
    placed.insert(base, placement)?;
    bases.insert(unit, base)?;
    Ok(())
}

/// Gives the placement at a base its bytes.
pub(crate) fn fill(placed: &mut BTreeMap<u64, Placement>, base: u64, bytes: Bytes)
    ensures { Fills placed.old.entries base bytes placed.new.entries }
{
    if let Some(placement) = placed.get_mut(&base) {
        placement.bytes = Some(Deposit::new(bytes));
    }
}

/// Takes out the placement at a base, and tells how long its range is.
pub(crate) fn take_at(placed: &mut BTreeMap<u64, Placement>, base: u64) -> u64
    ensures entries { placed.new.entries ≡ remove_entry (tree.is_at (nat_cmp base)) placed.old.entries }
    ensures need { IfAt placed.old.entries base (λ p. result ≡ p.shape.need) }
{
    match placed.remove(&base) {
        Some(placement) => placement.shape.need,
        None => 0,
    }
}

/// Whether the placement at a base has bytes.
pub(crate) fn is_deposited(placed: &BTreeMap<u64, Placement>, base: u64) -> bool
    ensures { IfAt placed.now.entries base (λ p. result ≡ is_some p.bytes) }
{
    match placed.get(&base) {
        Some(placement) => placement.bytes.is_some(),
        None => false,
    }
}

/// Takes a range out of the gap number `at`, where the number after those of the gaps stands for
/// what is above the last range. The answer is where the last range ends then.
pub(crate) fn take_out(gaps: &mut VecDeque<Gap>, last: u64, at: usize, base: u64, end: u64) -> u64
    requires at { at ≤ deque_len gaps.old }
    requires room { deque_len gaps.old < deque_capacity gaps.old }
    ensures gaps { TakesOut at base end gaps.old.items last gaps.new.items result }
    ensures capacity { deque_capacity gaps.old ≤ deque_capacity gaps.new }
{
    if at == gaps.len() {
        add_gap(gaps, at, last, base);
        return end;
    }
    let gap = raise_start(gaps, at, end);
    add_gap(gaps, at, gap.start, base);
    last
}

/// Gives a range back. The answer is where the last range that is left ends.
pub(crate) fn give_back(gaps: &mut VecDeque<Gap>, last: u64, base: u64, end: u64) -> u64
    requires room { deque_len gaps.old < deque_capacity gaps.old }
    requires rising { IsNonDecreasingBy (λ g. g.end) gaps.old.items }
    ensures gaps { GivesBack base end gaps.old.items last gaps.new.items result }
    ensures capacity { deque_capacity gaps.old ≤ deque_capacity gaps.new }
{
    let at = count_below(gaps, base);
    let start = take_ending(gaps, at, base);
    if end == last {
        return start;
    }
    let top = take_starting(gaps, at, end);
    add_gap(gaps, at, start, top);
    last
}

/// The deposited ranges.
pub(crate) fn list_deposits(
    alloc: Global,
    placed: &BTreeMap<u64, Placement>,
) -> Result<Vec<Segment>, AllocError>
    ensures { IfOk result (λ segments. segments.items ≡ deposits (tree.values placed.now)) }
{
    let mut segments = Vec::new(alloc);
    for placement in placed.values() {
        push_segment(alloc, &mut segments, placement)?;
    }
    Ok(segments)
}

/// Brings a list of the deposited ranges up to date that is so below a base.
pub(crate) fn renew(
    alloc: Global,
    segments: &mut Vec<Segment>,
    base: u64,
    placed: &BTreeMap<u64, Placement>,
) -> Result<(), AllocError>
    requires laid_out { AreLaidOut (tree.values placed.now) }
    requires by_base { placed.now.entries ≡ keyed (tree.values placed.now) }
    requires segments { AreSegments segments.old.items }
    requires same { based_below base segments.old.items ≡ based_below base (deposits (tree.values placed.now)) }
    ensures { IfOk result (λ _. segments.new.items ≡ deposits (tree.values placed.now)) }
{
    let kept = count_based_below(segments.as_slice(), base);
    segments.truncate(kept);
    push_from(alloc, segments, base, placed)
}

/// How many ranges have bases below an address.
fn count_based_below(segments: &[Segment], at: u64) -> usize
    requires { IsNonDecreasingBy (λ s. s.base) segments.now }
    ensures { take result segments.now ≡ based_below at segments.now }
{
    segments.partition_point(|segment| segment.base < at)
}

/// Adds the deposited ranges from a base on.
fn push_from(
    alloc: Global,
    segments: &mut Vec<Segment>,
    base: u64,
    placed: &BTreeMap<u64, Placement>,
) -> Result<(), AllocError>
    ensures { IfOk result (λ _. segments.new.items ≡ segments.old.items ++ deposits (placements_from base placed.now.entries)) }
{
    for (_, placement) in placed.range(base..) {
        push_segment(alloc, segments, placement)?;
    }
    Ok(())
}

/// Adds the range of a placement, if it has bytes.
fn push_segment(
    alloc: Global,
    segments: &mut Vec<Segment>,
    placement: &Placement,
) -> Result<(), AllocError>
    ensures { IfOk result (λ _. segments.new.items ≡ segments.old.items ++ deposits (placement.now ∷ [])) }
{
    if let Some(deposit) = &placement.bytes {
        let bytes = deposit.share(alloc)?;
        segments.push(Segment {
            base: placement.base,
            bytes,
        })?;
    }
    Ok(())
}
