ghost use Rattle.std.specs.Prelude.{◌≡◌, ◌<◌, ◌≤◌, Some, None, IfOk, [], length, vec_capacity, slice_get, option_map, slice_index_or};
ghost use Rattle.std.specs.Bool.{OnTrue, OnFalse};
ghost use Rattle.code_memory.specs.Mapped.{AreSegments};
ghost use Rattle.exec_run.specs.Regions.{all_uncopied, regions, seen, with_place, HasPlaces, IsIn, IsPut, IsSet};

use crate::number::put;
use code_memory::{Image, Segment};
use std::alloc::{AllocError, Global};
use std::marker::Model;

/// The ranges of an image, of which those that were written have copies in a pool. The places of the
/// copies are listed up to the last range that has one. There is room for the places and the bytes
/// of all copies from the start. Contracts see the ranges.
#[derive(Drop)]
pub(crate) struct Ranges<'a> {
    segments: &'a [Segment],
    places: Vec<Option<u32>>,
    pool: Vec<u8>,
}

impl<'a> Model for Ranges<'a> {
    ghost use Rattle.std.specs.Prelude.{List, vec_capacity};
    ghost use Rattle.code_memory.specs.declared.image.Segment.{Segment};

    ghost Value = { List Segment };

    ghost use Rattle.exec_run.specs.Regions.{seen, HasPlaces};

    ghost view = { λ r. seen r.segments.now r.places.items r.pool.items };

    ghost invariant = { λ r. HasPlaces r.segments.now r.places.items (vec_capacity r.places) r.pool.items (vec_capacity r.pool) };
}

impl<'a> Ranges<'a> {
    /// The ranges as the image has them; looks at no more of them than the first and the last.
    pub(crate) fn of_image(alloc: Global, image: &'a Image) -> Result<Ranges<'a>, AllocError>
        ensures image { IfOk result (λ ranges. ranges ≡ image.now) }
        ensures apart { AreSegments image.now }
    {
        let segments = image.segments();
        Ok(Ranges {
            segments,
            places: Vec::with_capacity(alloc, segments.len())?,
            pool: Vec::with_capacity(alloc, extent(segments))?,
        })
    }

    /// How many ranges there are.
    #[inline(always)]
    pub(crate) fn count(&self) -> usize
        ensures count { result ≡ length self.now }
        ensures apart { AreSegments self.now }
    {
        self.segments.len()
    }

    /// The first address of range k.
    #[inline(always)]
    pub(crate) fn base(&self, k: usize) -> u64
        requires { k < length self.now }
        ensures { option_map (λ s. s.base) (slice_get self.now k) ≡ Some result }
    {
        let segments = self.segments;
        segments[k].base
    }

    /// How many bytes range k has.
    #[inline(always)]
    pub(crate) fn size(&self, k: usize) -> usize
        requires { k < length self.now }
        ensures { option_map (λ s. length s.bytes) (slice_get self.now k) ≡ Some result }
    {
        let segments = self.segments;
        segments[k].bytes.len()
    }

    /// The bytes of range k.
    #[inline(always)]
    pub(crate) fn bytes(&self, k: usize) -> &[u8]
        requires { k < length self.now }
        ensures { option_map (λ s. s.bytes) (slice_get self.now k) ≡ Some result.now }
    {
        let segments = self.segments;
        let bytes = segments[k].bytes.as_slice();
        match place_of(&self.places, k) {
            Some(place) => &self.pool[place as usize..place as usize + bytes.len()],
            None => bytes,
        }
    }

    /// Writes a value in range k, unless the range has no copy or ends before.
    #[inline(always)]
    pub(crate) fn put(&mut self, k: usize, at: u64, width: u8, value: u64) -> bool
        requires { IsIn self.old k at }
        ensures done { OnTrue result (IsPut self.old self.new k at width value) }
        ensures kept { OnFalse result (self.new ≡ self.old) }
        ensures apart { AreSegments self.new }
    {
        let Some(place) = place_of(&self.places, k) else {
            return false;
        };
        let segment = &self.segments[k];
        let from = (at - segment.base) as usize;
        if segment.bytes.len() - from < usize::from(width) {
            return false;
        }
        put(&mut self.pool, place as usize + from, width, value);
        true
    }

    /// Writes a byte in range k.
    pub(crate) fn set(&mut self, k: usize, at: u64, byte: u8)
        requires { IsIn self.old k at }
        ensures done { IsSet self.old self.new k at byte }
        ensures apart { AreSegments self.new }
    {
        let place = copied(self.segments, &mut self.places, &mut self.pool, k);
        let from = (at - self.segments[k].base) as usize;
        self.pool[place + from] = byte;
    }
}

/// How many addresses there are from the first range to the end of the last: the ranges are apart,
/// so they have no more bytes.
fn extent(segments: &[Segment]) -> usize
    requires { AreSegments segments.now }
    ensures { all_uncopied (regions segments.now []) ≤ result }
{
    let Some(last) = segments.last() else {
        return 0;
    };
    (last.base - segments[0].base) as usize + last.bytes.len()
}

/// The place of the copy of range k, where it has one.
#[inline(always)]
fn place_of(places: &[Option<u32>], k: usize) -> Option<u32>
    ensures { result ≡ slice_index_or places.now k None }
{
    if k < places.len() { places[k] } else { None }
}

/// Notes the place of the copy of range k; takes no memory.
fn set_place(places: &mut Vec<Option<u32>>, k: usize, place: u32)
    requires { k < vec_capacity places.old }
    ensures noted { places.new.items ≡ with_place places.old.items k place }
    ensures capacity { vec_capacity places.old ≤ vec_capacity places.new }
{
    if k < places.len() {
        places[k] = Some(place);
        return;
    }
    let _ = places.resize(k, None);
    let _ = places.push(Some(place));
}

/// The place of the copy of range k, which is made if there is none yet; takes no memory.
fn copied(
    segments: &[Segment],
    places: &mut Vec<Option<u32>>,
    pool: &mut Vec<u8>,
    k: usize,
) -> usize
    requires places { HasPlaces segments.now places.old.items (vec_capacity places.old) pool.old.items (vec_capacity pool.old) }
    requires there { k < length segments.now }
    ensures places { HasPlaces segments.now places.new.items (vec_capacity places.new) pool.new.items (vec_capacity pool.new) }
    ensures same { seen segments.now places.new.items pool.new.items ≡ seen segments.now places.old.items pool.old.items }
    ensures place { slice_index_or places.new.items k None ≡ Some result }
{
    if let Some(place) = place_of(places, k) {
        return place as usize;
    }
    let place = pool.len();
    let _ = pool.extend_from_slice(segments[k].bytes.as_slice());
    set_place(places, k, place as u32);
    place
}
