ghost use Rattle.std.specs.Prelude.{◌≡◌, ◌++◌, OnOk};
ghost use Rattle.text_parts.specs.Places.{place_text, edge_text};

use crate::numbers::put_pair;
use orc_ids::Place;
use std::alloc::AllocError;

/// A text and a place.
pub fn put_placed(out: &mut Vec<u8>, text: &[u8], place: Place) -> Result<(), AllocError>
    ensures { OnOk result (out.new.items ≡ out.old.items ++ (text.now ++ place_text place)) }
{
    put_pair(out, text, place.block, b" ", place.offset)
}

/// A text and an edge: its place, its kind and its value.
pub fn put_edge(
    out: &mut Vec<u8>,
    text: &[u8],
    place: Place,
    kind: u32,
    value: i64,
) -> Result<(), AllocError>
    ensures { OnOk result (out.new.items ≡ out.old.items ++ (text.now ++ edge_text place kind value)) }
{
    put_placed(out, text, place)?;
    put_pair(out, b" ", kind, b" ", value)
}
