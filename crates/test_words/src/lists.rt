//! Lists, as tests write them down.

use orc_ids::InstId;
use std::alloc::AllocError;

/// Writes one match, or that there is none.
fn write_match(text: &mut String, matched: &Option<(InstId, u64)>) -> Result<(), AllocError> {
    match matched {
        Some((i, address)) => write!(text, "Some((InstId({}), {address}))", i.0),
        None => write!(text, "None"),
    }
}

/// Writes the instance and the address of each wanted name.
pub fn write_matches(
    text: &mut String,
    matches: &[Option<(InstId, u64)>],
) -> Result<(), AllocError> {
    write!(text, "Items {{ items: [")?;
    for (k, matched) in matches.iter().enumerate() {
        if k > 0 {
            write!(text, ", ")?;
        }
        write_match(text, matched)?;
    }
    write!(text, "] }}")
}
