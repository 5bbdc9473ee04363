ghost use Rattle.std.specs.Prelude.{◌≡◌, ◌<◌, ◌≤◌, ◌⊎◌, ℕ, true, false, length, slice_get, Some, Contains, OnOk, OnErr, vec_capacity};
ghost use Rattle.orc_ids.specs.declared.ids.InstId.{InstId};
ghost use Rattle.dep_groups.specs.Places.{is_set};
ghost use Rattle.dep_groups.specs.Marks.{IsTold};
ghost use Rattle.dep_groups.specs.Hits.{IsResting, IsNoted, IsSameHits, HasHitRoom};

use crate::add::grow_flags;
use crate::places::{is_set, lower, raise};
use orc_ids::InstId;
use std::alloc::AllocError;

/// What a failure hits: a flag for each instance, and those that are flagged, in the order in which
/// they were found. Between failures no flag is set, and the list is what the last one hit.
#[derive(Drop)]
pub(crate) struct Hits {
    pub(crate) flags: Vec<bool>,
    pub(crate) order: Vec<InstId>,
}

/// Makes the room for places, and no place yet.
pub(crate) fn reserve_hits(hits: &mut Hits, places: usize) -> Result<(), AllocError>
    requires resting { IsResting hits.old }
    ensures resting { IsResting hits.new }
    ensures same { IsSameHits hits.old hits.new }
    ensures room { OnOk result (HasHitRoom hits.new places) }
{
    hits.flags.reserve(places.saturating_sub(hits.flags.len()))?;
    hits.order.reserve(places.saturating_sub(hits.order.len()))
}

/// Makes places, where there is the room for them.
pub(crate) fn grow_hits(hits: &mut Hits, places: usize)
    requires resting { IsResting hits.old }
    requires room { HasHitRoom hits.old places }
    ensures resting { IsResting hits.new }
    ensures order { hits.new.order ≡ hits.old.order }
    ensures more { length hits.old.flags.items ≤ length hits.new.flags.items }
    ensures covers { places ≤ length hits.new.flags.items }
{
    if hits.flags.len() < places {
        grow_flags(&mut hits.flags, places);
    }
}

/// Makes places for instances, all or none.
pub(crate) fn make_places(hits: &mut Hits, places: usize) -> Result<(), AllocError>
    requires resting { IsResting hits.old }
    ensures resting { IsResting hits.new }
    ensures order { hits.new.order.items ≡ hits.old.order.items }
    ensures more { length hits.old.flags.items ≤ length hits.new.flags.items }
    ensures covers { OnOk result (places ≤ length hits.new.flags.items) }
    ensures err { OnErr result (length hits.new.flags.items ≡ length hits.old.flags.items) }
{
    reserve_hits(hits, places)?;
    grow_hits(hits, places);
    Ok(())
}

/// Hits an instance, if it isn't hit yet.
fn hit_one(hits: &mut Hits, instance: InstId)
    requires within { instance.0 < length hits.old.flags.items }
    requires noted { IsNoted hits.old }
    ensures noted { IsNoted hits.new }
    ensures hit { is_set hits.new.flags.items instance.0 ≡ true }
    ensures stays { (i : ℕ) → is_set hits.old.flags.items i ≡ true → is_set hits.new.flags.items i ≡ true }
    ensures only { (i : ℕ) → is_set hits.new.flags.items i ≡ true → (is_set hits.old.flags.items i ≡ true) ⊎ (instance.0 ≡ i) }
    ensures places { length hits.new.flags.items ≡ length hits.old.flags.items }
    ensures capacity { vec_capacity hits.new.order ≡ vec_capacity hits.old.order }
{
    if !is_set(&hits.flags, instance.0 as usize) {
        raise(&mut hits.flags, instance.0 as usize);
        hits.order.push_reserved(instance);
    }
}

/// Hits the instances that a failure begins with.
pub(crate) fn hit_roots(hits: &mut Hits, roots: &[InstId])
    requires within { (m : InstId) → Contains roots.now m → m.0 < length hits.old.flags.items }
    requires noted { IsNoted hits.old }
    ensures noted { IsNoted hits.new }
    ensures hit { (m : InstId) → Contains roots.now m → is_set hits.new.flags.items m.0 ≡ true }
    ensures only { (i : ℕ) → is_set hits.new.flags.items i ≡ true → (is_set hits.old.flags.items i ≡ true) ⊎ Contains roots.now (record { 0 = i }) }
    ensures places { length hits.new.flags.items ≡ length hits.old.flags.items }
    ensures capacity { vec_capacity hits.new.order ≡ vec_capacity hits.old.order }
{
    for root in roots {
        hit_one(hits, *root);
    }
}

/// Takes the flags of instances back.
pub(crate) fn lower_all(flags: &mut [bool], instances: &[InstId])
    requires within { (k : ℕ) (m : InstId) → slice_get instances.now k ≡ Some m → m.0 < length flags.old }
    requires known { (i : ℕ) → is_set flags.old i ≡ true → IsTold instances.now 0 (record { 0 = i }) }
    ensures { (i : ℕ) → is_set flags.new i ≡ false }
{
    for instance in instances {
        lower(flags, instance.0 as usize);
    }
}
