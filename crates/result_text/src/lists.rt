ghost use Rattle.std.specs.Prelude.{◌≡◌};
ghost use Rattle.result_text.specs.Results.{list_at};

use orc_ids::Items;

/// The list at a place, or none where there is no such place.
pub(crate) fn list_at<T>(lists: &[Items<T>], place: usize) -> &[T]
    ensures { result.now ≡ list_at place lists.now }
{
    match lists.get(place) {
        Some(list) => list.as_slice(),
        None => &[],
    }
}
