//! What a notifier was told, as tests write it down.

use orc_ids::{End, Outcome};
use std::alloc::AllocError;

/// Writes what was told: the query, and how it ended.
fn write_outcome(text: &mut String, outcome: &Outcome) -> Result<(), AllocError> {
    let query = outcome.query.0;
    match outcome.end {
        End::Found(entry) => write!(
            text,
            "Outcome {{ query: QueryId({query}), end: Found({entry}) }}"
        ),
        End::Failed(entry, i) => write!(
            text,
            "Outcome {{ query: QueryId({query}), end: Failed({entry}, InstId({})) }}",
            i.0
        ),
    }
}

/// Writes what a notifier has heard, or that it has heard nothing.
pub fn write_heard(text: &mut String, heard: &Option<Outcome>) -> Result<(), AllocError> {
    match heard {
        Some(outcome) => {
            write!(text, "Some(")?;
            write_outcome(text, outcome)?;
            write!(text, ")")
        }
        None => write!(text, "None"),
    }
}
