ghost use Rattle.std.specs.Prelude.{◌≡◌, ◌≢◌, true, false, ◌+◌, ◌<◌, ◌≤◌, ◌^◌, ◌++◌, ◌∷◌, [], None, Some, length, set, slice_get, vec_len, IsSome, IfSome, OnOk, OnErr};
ghost use Rattle.tracker.specs.Owners.{within, change_at, and_all_of};
ghost use Rattle.tracker.specs.Places.{HasOneMore, CanJoin};

use crate::owned::Owned;
use orc_ids::{GenId, UnitId};
use std::alloc::AllocError;
use std::collections::LinkedList;

/// More links than a chain may have.
const TOO_LONG: usize = 0x8000_0000_0000_0000;

/// Whether one more unit can be added to a tracker.
pub(crate) fn has_place(tracks: &[Option<Owned>], at: usize) -> bool
    ensures { result ≡ true → HasOneMore tracks.now at }
{
    match tracks.get(at) {
        Some(Some(owned)) => owned.units.len() + 1 < TOO_LONG,
        _ => true,
    }
}

/// Adds a unit to the tracker of a place, in the link that was made for it; takes no memory.
pub(crate) fn add_at(
    tracks: &mut Vec<Option<Owned>>,
    at: usize,
    spare: &mut LinkedList<UnitId>,
    u: UnitId,
)
    requires at { at < vec_len tracks.old }
    requires link { length spare.old ≡ 1 }
    requires place { HasOneMore tracks.old.items at }
    ensures tracks { tracks.new.items ≡ change_at at (λ o. record o { units = o.units ++ u ∷ [] }) tracks.old.items }
    ensures spare { length spare.new ≤ 1 }
{
    if let Some(owned) = &mut tracks[at] {
        add(&mut owned.units, spare, u);
    }
}

/// Adds a generator to the tracker of a place.
pub(crate) fn add_generator_at(
    tracks: &mut Vec<Option<Owned>>,
    at: usize,
    g: GenId,
) -> Result<(), AllocError>
    requires { at < vec_len tracks.old }
    ensures ok { OnOk result (tracks.new.items ≡ change_at at (λ o. record o { generators = o.generators ++ g ∷ [] }) tracks.old.items) }
    ensures err { OnErr result (tracks.new.items ≡ tracks.old.items) }
{
    if let Some(owned) = &mut tracks[at] {
        owned.generators.push_back(g)?;
    }
    Ok(())
}

/// Adds a unit at the end of a chain, in the link that was made for it; takes no memory.
fn add(units: &mut LinkedList<UnitId>, spare: &mut LinkedList<UnitId>, u: UnitId)
    requires link { length spare.old ≡ 1 }
    requires place { length units.old + 1 < 2 ^ 63 }
    ensures units { units.new ≡ units.old ++ u ∷ [] }
    ensures spare { spare.new ≡ [] }
{
    if let Some(link) = spare.front_mut() {
        *link = u;
    }
    let _ = units.append(spare);
}

/// Whether what two trackers own can stand in one chain.
fn can_join(more: &Owned, owned: &Owned) -> bool
    ensures { result ≡ true → CanJoin more.now owned.now }
{
    owned.units.len() + more.units.len() < TOO_LONG
        && owned.generators.len() + more.generators.len() < TOO_LONG
}

/// Puts all that one tracker owns behind what the other one has, in constant time.
fn join(owned: &mut Owned, more: &mut Owned)
    requires { CanJoin more.old owned.old }
    ensures { owned.new ≡ and_all_of more.old owned.old }
{
    let _ = owned.units.append(&mut more.units);
    let _ = owned.generators.append(&mut more.generators);
}

/// Whether what the trackers of two places own can stand in one chain.
pub(crate) fn can_merge(tracks: &[Option<Owned>], from: usize, to: usize) -> bool
    ensures { result ≡ true → IfSome (within (slice_get tracks.now from)) (λ more. IfSome (within (slice_get tracks.now to)) (λ o. CanJoin more o)) }
{
    match (tracks.get(from), tracks.get(to)) {
        (Some(Some(more)), Some(Some(owned))) => can_join(more, owned),
        _ => true,
    }
}

/// Makes all that one tracker owns belong to another one, in constant time; the one is gone then.
pub(crate) fn merge_in(tracks: &mut Vec<Option<Owned>>, from: usize, to: usize)
    requires from { from < vec_len tracks.old }
    requires to { to < vec_len tracks.old }
    requires apart { from ≢ to }
    requires room { IfSome (within (slice_get tracks.old.items from)) (λ more. IfSome (within (slice_get tracks.old.items to)) (λ o. CanJoin more o)) }
    ensures { IfSome (within (slice_get tracks.old.items from)) (λ more. tracks.new.items ≡ change_at to (and_all_of more) (set tracks.old.items from None)) }
{
    if let Some(mut more) = tracks[from].take() {
        join_at(tracks, to, &mut more);
    }
}

/// Takes away the tracker of a place, and gives what it owned; takes no memory.
pub(crate) fn take_at(tracks: &mut Vec<Option<Owned>>, at: usize) -> Owned
    requires { IsSome (within (slice_get tracks.old.items at)) }
    ensures owned { within (slice_get tracks.old.items at) ≡ Some result }
    ensures tracks { tracks.new.items ≡ set tracks.old.items at None }
{
    tracks[at].take().unwrap()
}

/// Puts all that a tracker owned behind what the one of a place has.
fn join_at(tracks: &mut Vec<Option<Owned>>, at: usize, more: &mut Owned)
    requires at { at < vec_len tracks.old }
    requires room { IfSome (within (slice_get tracks.old.items at)) (λ o. CanJoin more.old o) }
    ensures { tracks.new.items ≡ change_at at (and_all_of more.old) tracks.old.items }
{
    if let Some(owned) = &mut tracks[at] {
        join(owned, more);
    }
}
