ghost use Rattle.std.specs.Prelude.{◌≡◌, ◌<◌, ◌+◌, ◌-◌, ◌^◌, ℕ, Some, None, true, false, ◌==◌, if◌then◌else◌, length};
ghost use Rattle.dep_groups.specs.Places.{place, is_set, unset};

use crate::slot::Slot;

/// What stands in a place; past the end nothing does.
pub(crate) fn slot_at(places: &[Slot], k: usize) -> Slot
    ensures { result ≡ place places.now k }
{
    match places.get(k) {
        Some(found) => *found,
        None => Slot::none(),
    }
}

/// The number that stands in a place, if any.
pub(crate) fn at(places: &[Slot], k: usize) -> Option<u32>
    ensures { result ≡ place places.now k }
{
    slot_at(places, k).get()
}

/// Puts a number into a place.
pub(crate) fn put(places: &mut [Slot], k: usize, number: u32)
    requires within { k < length places.old }
    requires few { number < 2 ^ 32 - 1 }
    ensures { (n : ℕ) → place places.new n ≡ (if k == n then Some number else place places.old n) }
{
    places[k] = Slot::of(number);
}

/// Sets what stands in a place.
pub(crate) fn set(places: &mut [Slot], k: usize, content: Slot)
    requires { k < length places.old }
    ensures { (n : ℕ) → place places.new n ≡ (if k == n then content else place places.old n) }
{
    places[k] = content;
}

/// Empties a place, if it is there.
pub(crate) fn empty(places: &mut [Slot], k: usize)
    ensures { (n : ℕ) → place places.new n ≡ (if k == n then None else place places.old n) }
{
    if k < places.len() {
        places[k] = Slot::none();
    }
}

/// Whether a flag is set.
pub(crate) fn is_set(flags: &[bool], k: usize) -> bool
    ensures { result ≡ is_set flags.now k }
{
    match flags.get(k) {
        Some(flag) => *flag,
        None => false,
    }
}

/// Sets a flag.
pub(crate) fn raise(flags: &mut [bool], k: usize)
    requires { k < length flags.old }
    ensures set { (n : ℕ) → is_set flags.new n ≡ (if k == n then true else is_set flags.old n) }
    ensures count { is_set flags.old k ≡ false → unset flags.new + 1 ≡ unset flags.old }
{
    flags[k] = true;
}

/// Takes a flag back.
pub(crate) fn lower(flags: &mut [bool], k: usize)
    requires { k < length flags.old }
    ensures { (n : ℕ) → is_set flags.new n ≡ (if k == n then false else is_set flags.old n) }
{
    flags[k] = false;
}
